// A log that a run copies amid its rotation.
ghost use Rattle.std.specs.Prelude.{◌≡◌, List, ◌∷◌, ◌++◌, Some};
ghost use Rattle.lr_rules.specs.declared.clock.Clock.{Clock};
ghost use Rattle.lr_rules.specs.declared.path.Path.{Path};
ghost use Rattle.lr_rules.specs.declared.rules.Rules.{Rules};
ghost use Rattle.lr_host.specs.declared.entry.Entry.{Entry};
ghost use Rattle.lr_host.specs.declared.entry.Entry.TheVariants.{Starts};
ghost use Rattle.lr_host.specs.Lists.{IsIn};
ghost use Rattle.lr_host.specs.Quiet.{AreQuiet};
ghost use Rattle.lr_copy.specs.declared.job.Job.{Job};
ghost use Rattle.lr_laws_acts.specs.Emptied.{EmptiesCopied};
ghost use Rattle.lr_laws_family.specs.Made.{AreOutside, RotatesAmong};
ghost use Rattle.lr_laws_family.specs.Rotation.{IsOfMembers};
ghost use Rattle.lr_laws_rotations.specs.AllTurns.{paths_beside};
ghost use Rattle.lr_laws_rotations.specs.Rotation.{rotation_by};
ghost use Rattle.lr_laws_rotations.specs.Target.{Target};
ghost use Rattle.lr_laws_rotations.specs.Runs.{AllTurnedBy};
ghost use Rattle.lr_laws_acts.specs.Copied.{CopyStands, IsSameFor};

/// Where each log was rotated whole, and one of them was copied, one entry behind another, from where it stands or from where
/// it is set aside, with nothing else that empties it, the entries are the looks at that log and its rotation, as its plan has
/// it, by the copy, with others between on the paths of other logs and of the state, and the making of the log's own
/// directory: `family_is_turned` says what becomes of its files.
pub fn copied_log_rotates()
    ensures { (state : Path) (clock : Clock) (rules : Rules) (reads tail : List Entry) (t : AllTurnedBy state clock rules tail)
        (x : Target) (job : Job) → AreQuiet reads → IsIn x t.turns.targets → x.job ≡ Some job → IsOfMembers x.naming (rotation_by x)
        → AreOutside (job.part ∷ paths_beside state x t.turns.targets) x.naming (rotation_by x)
        → CopyStands job t.turns.acts → EmptiesCopied (IsSameFor x.log job) t.turns.acts
        → RotatesAmong (paths_beside state x t.turns.targets) x.naming (rotation_by x)
        (reads ++ Starts state clock.now rules ∷ tail) }
{}
