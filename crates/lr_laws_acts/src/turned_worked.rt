// A log that is copied, worked through.
ghost use Rattle.std.specs.Prelude.{◌≡◌, List};
ghost use Rattle.lr_rules.specs.declared.path.Path.{Path};
ghost use Rattle.lr_rules.specs.declared.rule.Naming.{Naming};
ghost use Rattle.lr_host.specs.Opening.{IsJournal};
ghost use Rattle.lr_host.specs.World.{Opens};
ghost use Rattle.lr_laws.specs.Chain.{found};
ghost use Rattle.lr_laws_family.specs.CopiesWorked.{job};
ghost use Rattle.lr_copy.specs.declared.job.Job.{Job};
ghost use Rattle.lr_laws_family.specs.Rotation.{Rotation, Copy, Aside as SetsAside};
ghost use Rattle.lr_laws_family.specs.Turned.{IsTurned};
ghost use Rattle.lr_laws_acts.specs.TurnedWorked.{unlinked, aside, left_aside};

/// Where a rotation does something else with the log, its family was not turned.
pub fn family_is_not_turned()
    // Where the log is unlinked behind its copy, in place of being kept or emptied, its family wasn't turned by the copy, by
    // whatever names and rotation.
    ensures unlinked_journal { IsJournal unlinked }
    ensures unlinked_lost { (paths : List Path) (n : Naming) (r : Rotation) → r.by ≡ Copy job → r.source ≡ job.from
        → IsTurned paths n r (Opens found) unlinked → ⊥ }

    // Where a log was set aside and copied, and stands there still, its family wasn't turned so, by whatever copy, names and
    // rotation.
    ensures left_aside_journal { IsJournal left_aside }
    ensures left_aside_stays { (paths : List Path) (n : Naming) (r : Rotation) (job : Job) → r.by ≡ SetsAside job → r.source ≡ aside
        → IsTurned paths n r (Opens found) left_aside → ⊥ }
{}
