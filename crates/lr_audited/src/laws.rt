// What an audit tells, and what looks and plans are.
ghost use Rattle.std.specs.Prelude.{◌≡◌, true, List};
ghost use Rattle.lr_rules.specs.declared.clock.Clock.{Clock};
ghost use Rattle.lr_rules.specs.declared.fault.Fault.{Fault};
ghost use Rattle.lr_rules.specs.declared.path.Path.{Path};
ghost use Rattle.lr_rules.specs.declared.rules.Rules.{Rules};
ghost use Rattle.lr_host.specs.declared.entry.Entry.{Entry};
ghost use Rattle.lr_host.specs.Lists.{AreDistinct};
ghost use Rattle.lr_state.specs.Table.{StateEntry as Row};
ghost use Rattle.lr_plan.specs.Asked.{asking};
ghost use Rattle.lr_plan.specs.declared.looks.Looks.{Looks};
ghost use Rattle.lr_plan.specs.declared.looks.SetLooks.{SetLooks};
ghost use Rattle.lr_plan.specs.Planned.{plan_of};
ghost use Rattle.lr_looks.specs.Found.{paths_of};
ghost use Rattle.lr_looks.specs.Shown.{ShowsLooks};
ghost use Rattle.lr_audited.specs.Audits.{going_of};
ghost use Rattle.lr_audited.specs.Lines.{known_paths};
ghost use Rattle.lr_audited.specs.Unlinked.{going_paths, files_unlinked};

/// Whatever the state tells, and whatever program mails files: a run by `--force` that made these looks, at this clock, has a
/// plan whose steps unlink just the files that are told as going, in this order, old part files aside. Each is traced back to
/// the name that it has before the first step: through the renames of all logs, be their scripts shared or not; and of a file
/// that the steps make, as the copy of a log is, there is nothing to tell.
pub fn removals_are_foretold()
    ensures { (reserved : List Path) (rules : Rules) (sets : List SetLooks) (faults : List Fault) (ts : List Entry)
        (table : List Row) (clock : Clock) (mailer other : Path)
        → ShowsLooks reserved rules.sets sets faults ts
        → files_unlinked (plan_of rules.sets sets table clock (asking true mailer))
        ≡ going_paths (going_of rules.sets sets clock other) }
{}

/// No two of the lines that looks give have the same path: a file is one thing, of one log.
pub fn known_files_differ()
    ensures { (reserved : List Path) (rules : Rules) (looks : Looks) (faults : List Fault) (ts : List Entry)
        → (s : ShowsLooks reserved rules.sets looks.sets faults ts) → looks.kept ≡ paths_of s.kept
        → AreDistinct (known_paths rules.sets looks) }
{}
