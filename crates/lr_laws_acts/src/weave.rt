// What the acts of a plan leave.
ghost use Rattle.std.specs.Prelude.{List, ◌++◌};
ghost use Rattle.lr_rules.specs.declared.clock.Clock.{Clock};
ghost use Rattle.lr_rules.specs.declared.path.Path.{Path};
ghost use Rattle.lr_rules.specs.declared.fault.Fault.{Fault};
ghost use Rattle.lr_rules.specs.declared.rules.Rules.{Rules};
ghost use Rattle.lr_host.specs.declared.entry.Entry.{Entry};
ghost use Rattle.lr_host.specs.Quiet.{AreQuiet};
ghost use Rattle.lr_plan.specs.declared.mark.Mark.{Mark};
ghost use Rattle.lr_plan.specs.declared.step.SetSteps.{SetSteps};
ghost use Rattle.lr_plan.specs.Done.{SetsDone};
ghost use Rattle.lr_laws_rotations.specs.Target.{Target};
ghost use Rattle.lr_laws_rotations.specs.Runs.{AllTurnsBy};
ghost use Rattle.lr_laws_rotations.specs.Seen.{AreLogsSeen};
ghost use Rattle.lr_laws_acts.specs.Parts.{ArePlanned};

/// Behind looks that saw its logs, the acts of a planned plan leave the entries of a run that rotates them, whatever failed.
pub fn acts_turn_all()
    ensures { (state : Path) (clock : Clock) (rules : Rules) (looks : List Entry) (targets : List Target) (sets : List SetSteps)
        (marks : List Mark) (faults : List Fault) (ts : List Entry)
        → AreQuiet looks → AreLogsSeen rules clock looks targets → ArePlanned targets sets → SetsDone sets marks faults ts
        → AllTurnsBy state clock rules (looks ++ ts) }
{}
