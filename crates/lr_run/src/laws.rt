// What a run of which no step of the logs failed makes of its logs.
ghost use Rattle.std.specs.Prelude.{◌≡◌, false, List, [], ◌++◌, reverse};
ghost use Rattle.lr_rules.specs.declared.path.Path.{Path};
ghost use Rattle.lr_rules.specs.declared.clock.Clock.{Clock};
ghost use Rattle.lr_rules.specs.declared.rules.Rules.{Rules};
ghost use Rattle.lr_host.specs.declared.entry.Entry.{Entry};
ghost use Rattle.lr_host.specs.World.{Past};
ghost use Rattle.lr_host.specs.Opening.{IsJournal};
ghost use Rattle.lr_host.specs.Quiet.{AreQuiet};
ghost use Rattle.lr_host.specs.Told.{Made};
ghost use Rattle.lr_plan.specs.Asked.{Asked};
ghost use Rattle.lr_run.specs.Rotated.{TurnLogs};
ghost use Rattle.lr_run.specs.Work.{Work, ShowsWork, CarriesOut, run_entries};

/// A run that carried its plan out and of which no step of a log failed, behind reads that change nothing, turns whole the
/// family of each log of its plan to whose members, and to whose copy's part file, no writer is attached, whatever else it
/// tells: of a log that isn't there, or that meets another, say, or of a state that couldn't be written. A log with numbers
/// goes to the first of them, one with dates to the clock's stamp, by its rename, or by a copy with all bytes that it had as
/// it was last read; each member is where the rotation takes it.
pub fn run_turns_logs()
    ensures { (state : Path) (asked : Asked) (clock : Clock) (rules : Rules) (w : Work) (p q : Past) (es reads : List Entry)
        → Made p es q → IsJournal p → reverse es ≡ reads ++ run_entries false state clock rules w → AreQuiet reads
        → ShowsWork false state rules.sets clock asked w → CarriesOut state clock w → w.acts.of_logs ≡ []
        → TurnLogs state w.plan p q }
{}
