// What the entries of a call show: what it found and what it tells, where no call failed.
ghost use Rattle.std.specs.Prelude.{◌≡◌, ◌++◌, false, List, Ok, Option, ℕ, ℤ};
ghost use Rattle.lr_rules.specs.declared.path.Path.{Path};
ghost use Rattle.lr_rules.specs.declared.clock.Clock.{Clock};
ghost use Rattle.lr_rules.specs.declared.rules.Rules.{Rules};
ghost use Rattle.lr_rules.specs.declared.fault.Fault.{Fault};
ghost use Rattle.lr_host.specs.declared.entry.Entry.{Entry};
ghost use Rattle.lr_due.specs.declared.tz.Zone.{Zone};
ghost use Rattle.lr_plan.specs.Asked.{Asked};
ghost use Rattle.lr_plan.specs.declared.looks.SetLooks.{SetLooks};
ghost use Rattle.lr_plan.specs.declared.plan.Plan.{Plan};
ghost use Rattle.lr_host.specs.Counted.{calls_in};
ghost use Rattle.lr_looks.specs.Shown.{ShowsLooks};
ghost use Rattle.lr_run.specs.declared.answer.Ran.{Ran};
ghost use Rattle.lr_run.specs.Ran.{RunEnds};
ghost use Rattle.lr_run.specs.Work.{Work};
ghost use Rattle.lr_report.specs.declared.outcome.Outcome.TheVariants.{Done};
ghost use Rattle.lr_report.specs.declared.outcome.Report.{Report};
ghost use Rattle.lr_command.specs.declared.request.Request.{Request};
ghost use Rattle.lr_cli.specs.Asked.{AskFor};
ghost use Rattle.lr_cli.specs.Called.{Came, CallShows};
ghost use Rattle.lr_laws_fixed.specs.Alike.{AreAlike};

/// Where the same entries begin with looks of two outcomes and no call failed in either, the looks are the same, and so
/// are their faults and the logs that were looked at whole.
pub fn looks_are_fixed()
    ensures { (reserved : List Path) (rules : Rules) (sets others : List SetLooks) (faults more : List Fault)
        (ts us vs ws : List Entry)
        → ShowsLooks reserved rules.sets sets faults ts → ShowsLooks reserved rules.sets others more us
        → ts ++ vs ≡ us ++ ws
        → calls_in faults ≡ 0 → calls_in more ≡ 0 → (ts ≡ us) × (faults ≡ more) × AreAlike sets others }
{}

/// Entries fix the faults of a run that acts: where the same entries are shown as those of two runs over the same rules, and
/// no call failed in either, both have the same faults. A program that ended badly is told by its entry, something else at the
/// path of a directory to be made by the look that saw it, and a part file whose name is taken, or a log that is too long
/// to be copied, by what the entries lack.
pub fn faults_are_fixed()
    ensures { (state : Path) (asked : Asked) (clock : Clock) (rules : Rules) (earlier : List Fault) (one other : Ran)
        (work others : Option Work) (ts : List Entry)
        → RunEnds false state rules clock asked earlier (Ok one) work ts
        → RunEnds false state rules clock asked earlier (Ok other) others ts
        → calls_in one.faults.items ≡ 0 → calls_in other.faults.items ≡ 0 → one.faults.items ≡ other.faults.items }
{}

/// Entries fix the report of a call that isn't a dry run: where the same entries are shown as those of two reports, and no
/// failed call is told by either, the reports are the same.
pub fn reports_are_fixed()
    ensures { (here : Path) (words : List (List ℕ)) (request : Request) (zone : Zone) (seconds : ℤ) (plan another : Option Plan)
        (came others : Option Came)
        (one other : Report) (ts : List Entry) → AskFor here words request → request.settings.debug ≡ false
        → CallShows here words zone seconds plan (Done one) came ts
        → CallShows here words zone seconds another (Done other) others ts
        → calls_in one.faults ≡ 0 → calls_in other.faults ≡ 0 → (one.notices ≡ other.notices) × (one.faults ≡ other.faults) }
{}
