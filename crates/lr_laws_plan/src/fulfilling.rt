// What a run makes of its plan, what it leaves alone, and what its looks have to do with the disk.
ghost use Rattle.std.specs.Prelude.{◌≡◌, ◌≢◌, ◌≤◌, ◌+◌, Bool, false, List, [], ◌++◌, reverse, Option, Result};
ghost use Rattle.lr_rules.specs.declared.clock.Clock.{Clock};
ghost use Rattle.lr_rules.specs.declared.fault.Fault.{Fault};
ghost use Rattle.lr_rules.specs.declared.path.Path.{Path};
ghost use Rattle.lr_rules.specs.declared.rule.Rule.{Rule};
ghost use Rattle.lr_rules.specs.declared.rules.Rules.{Rules};
ghost use Rattle.lr_host.specs.declared.entry.Entry.{Entry};
ghost use Rattle.lr_host.specs.Lists.{IsIn};
ghost use Rattle.lr_host.specs.Opening.{IsJournal};
ghost use Rattle.lr_host.specs.Quiet.{AreQuiet};
ghost use Rattle.lr_host.specs.Told.{Made};
ghost use Rattle.lr_host.specs.declared.thing.Thing.TheVariants as thing;
ghost use Rattle.lr_host.specs.World.{Past, world, names};
ghost use Rattle.lr_glob.specs.Listings.{listings_of};
ghost use Rattle.lr_plan.specs.Asked.{Asked};
ghost use Rattle.lr_plan.specs.declared.mark.Mark.TheVariants as mark;
ghost use Rattle.lr_host.specs.Looking.{AreSights};
ghost use Rattle.lr_run.specs.declared.answer.Ran.{Ran};
ghost use Rattle.lr_run.specs.declared.answer.RunStop.{RunStop};
ghost use Rattle.lr_run.specs.Halt.{Halt, Halts};
ghost use Rattle.lr_run.specs.Logs.{AreGivenBy};
ghost use Rattle.lr_run.specs.Met.{MetNothing};
ghost use Rattle.lr_run.specs.Ran.{RunEnds};
ghost use Rattle.lr_run.specs.Paths.{dirs_in};
ghost use Rattle.lr_run.specs.Saw.{ShowsSaw, ShowsSets};
ghost use Rattle.lr_run.specs.Work.{Work, ShowsWork, IsPlanOf, CarriesOut, BreaksOff, act_faults, run_entries, first_entries};
ghost use Rattle.lr_laws_looks.specs.Planned.{targets_in};
ghost use Rattle.lr_laws_plan.specs.Fulfilled.{NothingFailed, IsFulfilled};
ghost use Rattle.lr_laws_plan.specs.Left.{IsLeftAlone};
ghost use Rattle.lr_laws_plan.specs.Listings.{wildcards_of};
ghost use Rattle.lr_laws_plan.specs.Rest.{ChangesOnly, LeavesRest, LeavesSets};
ghost use Rattle.lr_laws_plan.specs.Truth.{WereTrue};

/// A run that came to its plan, behind looks, listings and reads, and of which no act failed, fulfilled it, whatever else it
/// tells: its acts are those of the plan, whatever writers did meanwhile; each log that is made anew is named, where its marks
/// are, as the run's contract tells; and the state tells of the logs, where none is attached to its paths.
pub fn run_is_fulfilled()
    ensures { (state : Path) (asked : Asked) (clock : Clock) (rules : Rules) (w : Work) (p q : Past) (es reads : List Entry)
        → Made p es q → IsJournal p → reverse es ≡ reads ++ run_entries false state clock rules w → AreSights reads
        → ShowsWork false state rules.sets clock asked w → CarriesOut state clock w → act_faults w.acts ≡ []
        → ((x : Path) → IsIn (mark.Created x) w.acts.marks → names (world q) x ≢ thing.Nothing)
        → IsFulfilled state clock w (reverse es) p q }
{}

/// Where the faults of a run tell of nothing that failed, none of its acts did; and where they tell of nothing that stopped its
/// acts, but may tell that the path was named of the file to which a new state is first written, no step of its logs failed.
pub fn run_meets_no_fault()
    ensures all { (state : Path) (rules : List Rule) (clock : Clock) (asked : Asked) (w : Work)
        → IsPlanOf rules w.saw clock asked w.plan → CarriesOut state clock w
        → NothingFailed state (dirs_in w.plan) (w.saw.faults ++ (w.plan.faults ++ act_faults w.acts)) → act_faults w.acts ≡ [] }
    ensures logs { (state : Path) (rules : List Rule) (clock : Clock) (asked : Asked) (w : Work)
        → IsPlanOf rules w.saw clock asked w.plan → CarriesOut state clock w
        → MetNothing (dirs_in w.plan) (w.saw.faults ++ (w.plan.faults ++ act_faults w.acts)) → w.acts.of_logs ≡ [] }
{}

/// A run that carried its plan out leaves alone what is no path of its state, no name of a log that it rotates and no directory
/// that it makes for one, whatever failed: each such path, so each name of another log that it kept, and each safe and steady
/// set of another log.
pub fn run_leaves_rest()
    ensures rest { (state : Path) (asked : Asked) (clock : Clock) (rules : Rules) (w : Work) (p q : Past) (es reads : List Entry)
        → Made p es q → IsJournal p → reverse es ≡ reads ++ run_entries false state clock rules w → AreQuiet reads
        → ShowsWork false state rules.sets clock asked w → CarriesOut state clock w
        → LeavesRest state w.saw.kept (targets_in w.plan) p q }
    ensures sets { (state : Path) (asked : Asked) (clock : Clock) (rules : Rules) (w : Work) (p q : Past) (es reads : List Entry)
        → Made p es q → IsJournal p → reverse es ≡ reads ++ run_entries false state clock rules w → AreQuiet reads
        → ShowsWork false state rules.sets clock asked w → CarriesOut state clock w
        → LeavesSets (targets_in w.plan) p q }
    ensures broken_rest { (state : Path) (asked : Asked) (clock : Clock) (rules : Rules) (w : Work) (p q : Past)
        (es reads : List Entry)
        → Made p es q → IsJournal p → reverse es ≡ reads ++ run_entries false state clock rules w → AreQuiet reads
        → ShowsWork false state rules.sets clock asked w → BreaksOff w
        → LeavesRest state w.saw.kept (targets_in w.plan) p q }
    ensures broken_sets { (state : Path) (asked : Asked) (clock : Clock) (rules : Rules) (w : Work) (p q : Past)
        (es reads : List Entry)
        → Made p es q → IsJournal p → reverse es ≡ reads ++ run_entries false state clock rules w → AreQuiet reads
        → ShowsWork false state rules.sets clock asked w → BreaksOff w
        → LeavesSets (targets_in w.plan) p q }
    ensures only { (state : Path) (asked : Asked) (clock : Clock) (rules : Rules) (w : Work)
        → ShowsWork false state rules.sets clock asked w → CarriesOut state clock w → ChangesOnly state (targets_in w.plan) w.did }
    ensures broken_only { (state : Path) (asked : Asked) (clock : Clock) (rules : Rules) (w : Work)
        → ShowsWork false state rules.sets clock asked w → BreaksOff w → ChangesOnly state (targets_in w.plan) w.did }
{}

/// A run that ended before its plan, or a dry one, leaves all alone: each path, and each steady set.
pub fn halted_run_leaves_all()
    ensures paths { (debug : Bool) (state : Path) (asked : Asked) (clock : Clock) (rules : Rules) (halt : Halt) (p q : Past)
        (es reads ts : List Entry)
        → Made p es q → IsJournal p → reverse es ≡ reads ++ ts → AreQuiet reads → Halts debug state rules clock asked halt ts
        → (x : Path) → IsLeftAlone p q x }
    ensures sets { (debug : Bool) (state : Path) (asked : Asked) (clock : Clock) (rules : Rules) (halt : Halt) (p q : Past)
        (es reads ts : List Entry)
        → Made p es q → IsJournal p → reverse es ≡ reads ++ ts → AreQuiet reads → Halts debug state rules clock asked halt ts
        → LeavesSets [] p q }
{}

/// Each log of a run's plan is given by a word of one of its rules, as the run's entries show: with its naming, its count and its
/// age; and it goes by that rule's way, renamed, copied or set aside.
pub fn logs_are_given()
    ensures { (debug : Bool) (state : Path) (asked : Asked) (clock : Clock) (rules : Rules) (w : Work) (p q : Past)
        (es reads : List Entry)
        → Made p es q → reverse es ≡ reads ++ run_entries debug state clock rules w
        → ShowsSets state rules.sets w.saw w.looks → IsPlanOf rules.sets w.saw clock asked w.plan
        → AreGivenBy rules.sets w.plan }
{}

/// What the looks of a run came to, or of a dry one, was true of the disk, from the moment before it reads its state to the one
/// behind its looks, whatever it did then.
pub fn run_looks_are_true()
    ensures { (debug : Bool) (state : Path) (clock : Clock) (rules : Rules) (w : Work) (p q : Past) (es reads : List Entry)
        → Made p es q → IsJournal p → reverse es ≡ reads ++ run_entries debug state clock rules w
        → ShowsSaw debug state rules.sets w.saw w.dir w.reads w.looks
        → WereTrue rules.sets w.saw.words w.saw.sets (reads ++ first_entries debug state clock rules w) (w.reads ++ w.looks) p q }
{}

/// In its looks a run, or a dry one, lists a directory no more often than there are wildcards among the words of its rules, and
/// once more, however many logs are in it: once for the families of all logs, and at most once for each wildcard. So it does
/// in all, however it ends.
pub fn run_lists_once()
    ensures looks { (debug : Bool) (state : Path) (clock : Clock) (rules : Rules) (w : Work) (p q : Past) (es reads : List Entry)
        → Made p es q → reverse es ≡ reads ++ run_entries debug state clock rules w → ShowsSets state rules.sets w.saw w.looks
        → (dir : Path) → listings_of dir w.looks ≤ wildcards_of rules.sets + 1 }
    ensures all { (debug : Bool) (state : Path) (asked : Asked) (clock : Clock) (rules : Rules) (earlier : List Fault)
        (result : Result Ran RunStop) (work : Option Work) (p q : Past) (es : List Entry)
        → Made p es q → RunEnds debug state rules clock asked earlier result work (reverse es)
        → (dir : Path) → listings_of dir (reverse es) ≤ wildcards_of rules.sets + 1 }
{}
