// What looks show of the logs of a plan.
ghost use Rattle.std.specs.Prelude.{◌≢◌, List};
ghost use Rattle.lr_rules.specs.declared.clock.Clock.{Clock};
ghost use Rattle.lr_rules.specs.declared.fault.Fault.{Fault};
ghost use Rattle.lr_rules.specs.declared.path.Path.{Path};
ghost use Rattle.lr_rules.specs.declared.rule.Rule.{Rule};
ghost use Rattle.lr_rules.specs.declared.rules.Rules.{Rules};
ghost use Rattle.lr_rules.specs.Names.{IsName, Meet};
ghost use Rattle.lr_due.specs.declared.answer.Due.{Due};
ghost use Rattle.lr_host.specs.declared.entry.Entry.{Entry};
ghost use Rattle.lr_host.specs.Lists.{IsIn};
ghost use Rattle.lr_plan.specs.declared.looks.LogLook.{LogLook};
ghost use Rattle.lr_plan.specs.declared.looks.SetLooks.{SetLooks};
ghost use Rattle.lr_looks.specs.Found.{FoundLog};
ghost use Rattle.lr_looks.specs.Shown.{ShowsLooks};
ghost use Rattle.lr_laws_rotations.specs.Target.{Target};
ghost use Rattle.lr_laws_rotations.specs.Apart.{TargetsHaveNames};
ghost use Rattle.lr_laws_rotations.specs.Seen.{AreLogsSeen};
ghost use Rattle.lr_laws_looks.specs.Free.{AreFreeOf};
ghost use Rattle.lr_laws_looks.specs.Targets.{all_targets};

/// Each log that a plan rotates was seen as a file, and its members were: a word of its rule gives it, and there are names
/// for all its members. At the clock's moment the members go that the rule lets go. Its family's directory was seen too; or
/// it was missing, in a directory that was seen, and the rotation makes it.
pub fn looks_see_targets()
    ensures seen { (reserved : List Path) (rules : Rules) (sets : List SetLooks) (faults : List Fault) (ts : List Entry)
        (clock : Clock) (decide : Rule → LogLook → Due)
        → ShowsLooks reserved rules.sets sets faults ts → AreLogsSeen rules clock ts (all_targets clock decide rules.sets sets) }
    ensures names { (reserved : List Path) (rules : Rules) (sets : List SetLooks) (faults : List Fault) (ts : List Entry)
        (clock : Clock) (decide : Rule → LogLook → Due)
        → ShowsLooks reserved rules.sets sets faults ts → TargetsHaveNames (all_targets clock decide rules.sets sets) }
{}

/// None of them has a name that the run reserves for itself.
pub fn targets_are_free()
    ensures { (reserved : List Path) (rules : List Rule) (sets : List SetLooks) (faults : List Fault) (ts : List Entry)
        (clock : Clock) (decide : Rule → LogLook → Due)
        → ShowsLooks reserved rules sets faults ts → AreFreeOf reserved (all_targets clock decide rules sets) }
{}

/// A log that the looks kept has no reserved name, and meets no other log that the plan rotates.
pub fn kept_are_apart()
    ensures free { (reserved : List Path) (rules : List Rule) (sets : List SetLooks) (faults : List Fault) (ts : List Entry)
        (f : FoundLog) (path : Path)
        → (s : ShowsLooks reserved rules sets faults ts) → IsIn f s.kept → IsIn path reserved → IsName f.log.path f.log.naming path
        → ⊥ }
    ensures meet { (reserved : List Path) (rules : List Rule) (sets : List SetLooks) (faults : List Fault) (ts : List Entry)
        (clock : Clock) (decide : Rule → LogLook → Due) (f : FoundLog) (t : Target)
        → (s : ShowsLooks reserved rules sets faults ts) → IsIn f s.kept → IsIn t (all_targets clock decide rules sets)
        → t.log ≢ f.log.path → Meet t.log t.naming f.log.path f.log.naming → ⊥ }
{}
