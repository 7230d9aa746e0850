// Calls in which nothing is in the way of a run.
ghost use Rattle.std.specs.Prelude.{◌≡◌, false, List, [], ◌++◌, reverse, Some};
ghost use Rattle.lr_rules.specs.declared.clock.Clock.{Clock};
ghost use Rattle.lr_rules.specs.declared.path.Path.{Path};
ghost use Rattle.lr_rules.specs.declared.rules.Rules.{Rules};
ghost use Rattle.lr_host.specs.declared.entry.Entry.{Entry};
ghost use Rattle.lr_host.specs.declared.journal.Journal.{Journal};
ghost use Rattle.lr_host.specs.Counted.{calls_in, bad_scripts_in};
ghost use Rattle.lr_host.specs.Opening.{IsJournal};
ghost use Rattle.lr_host.specs.Quiet.{AreQuiet};
ghost use Rattle.lr_host.specs.Told.{Made};
ghost use Rattle.lr_host.specs.World.{past};
ghost use Rattle.lr_laws_acts.specs.Jobs.{jobs_of};
ghost use Rattle.lr_plan.specs.Asked.{Asked};
ghost use Rattle.lr_run.specs.Ran.{TellsNamesOf};
ghost use Rattle.lr_run.specs.Paths.{dirs_in};
ghost use Rattle.lr_run.specs.Work.{Work, ShowsWork, CarriesOut, act_faults, run_entries};
ghost use Rattle.lr_laws_plan.specs.Smooth.{IsSmooth};

/// A run that carried its plan out, behind entries that change nothing, and of whose acts no call failed and no program ended
/// badly: none of them failed, where writers spared the files that it writes first and the directories that it makes, nothing
/// was in the way of these files at first, and no log was too long to be copied. What the acts tell as taken had something at
/// a moment, as the run's contract says.
pub fn smooth_run_fails_nothing()
    ensures { (state : Path) (asked : Asked) (clock : Clock) (rules : Rules) (w : Work) (j k : Journal) (es reads : List Entry)
        → Made (past j) es (past k) → IsJournal (past j) → reverse es ≡ reads ++ run_entries false state clock rules w
        → AreQuiet reads
        → ShowsWork false state rules.sets clock asked w → CarriesOut state clock w → TellsNamesOf state clock w (Some j) (Some k)
        → IsSmooth state (jobs_of w.plan.sets) (dirs_in w.plan) (past j) (past k)
        → calls_in (act_faults w.acts) ≡ 0 → bad_scripts_in (act_faults w.acts) ≡ 0 → act_faults w.acts ≡ [] }
{}
