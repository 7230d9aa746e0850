// By what it is known whether a run reached its plan.
ghost use Rattle.std.specs.Prelude.{true, false, reverse, List, ◌++◌};
ghost use Rattle.lr_rules.specs.declared.clock.Clock.{Clock};
ghost use Rattle.lr_rules.specs.declared.fault.Fault.{Fault};
ghost use Rattle.lr_rules.specs.declared.path.Path.{Path};
ghost use Rattle.lr_rules.specs.declared.rules.Rules.{Rules};
ghost use Rattle.lr_host.specs.declared.entry.Entry.{Entry};
ghost use Rattle.lr_host.specs.Told.{Made};
ghost use Rattle.lr_host.specs.World.{Past};
ghost use Rattle.lr_plan.specs.Asked.{Asked};
ghost use Rattle.lr_run.specs.Halt.{OfFaults, Halts};
ghost use Rattle.lr_run.specs.Work.{Work, ShowsWork, CarriesOut, DidNothing, act_faults, run_entries};
ghost use Rattle.lr_laws_plan.specs.Ending.{NoneEnds, SaysWhyRun};
ghost use Rattle.lr_laws_plan.specs.Looked.{behind_start, SawState};
ghost use Rattle.lr_laws_plan.specs.Tried.{NoneEndsTry, SaysWhyTry};

/// A run that carried its plan out has no fault of its own that ends a run, and its entries tell that it saw its state behind
/// its start. One that halted has a last fault that says why: it is one that ends a run, or it is the one fault, a failed look
/// at the state's directory, at its path or at that of its part file, or a failed read of it; and where none of them ends a
/// run, the entries tell that it didn't see its state.
pub fn plan_is_reached()
    ensures none_ends { (state : Path) (asked : Asked) (clock : Clock) (rules : Rules) (w : Work) (p q : Past)
        → Made p (reverse (run_entries false state clock rules w)) q
        → ShowsWork false state rules.sets clock asked w → CarriesOut state clock w
        → NoneEnds state (w.saw.faults ++ (w.plan.faults ++ act_faults w.acts)) }
    ensures saw { (state : Path) (asked : Asked) (clock : Clock) (rules : Rules) (w : Work)
        → ShowsWork false state rules.sets clock asked w → CarriesOut state clock w
        → SawState state (behind_start (run_entries false state clock rules w)) }
    ensures why { (state : Path) (asked : Asked) (clock : Clock) (rules : Rules) (own : List Fault) (ts : List Entry)
        → Halts false state rules clock asked (OfFaults own) ts → SaysWhyRun state own }
    ensures unseen { (state : Path) (asked : Asked) (clock : Clock) (rules : Rules) (own : List Fault) (ts : List Entry)
        → Halts false state rules clock asked (OfFaults own) ts → NoneEnds state own → SawState state (behind_start ts) → ⊥ }
{}

/// A dry run that came to its plan has no fault of its own that ends such a run; the last fault of one that halted says why.
pub fn try_is_reached()
    ensures none_ends { (state : Path) (asked : Asked) (clock : Clock) (rules : Rules) (w : Work)
        → ShowsWork true state rules.sets clock asked w → DidNothing w
        → NoneEndsTry state (w.saw.faults ++ (w.plan.faults ++ act_faults w.acts)) }
    ensures why { (state : Path) (asked : Asked) (clock : Clock) (rules : Rules) (own : List Fault) (ts : List Entry)
        → Halts true state rules clock asked (OfFaults own) ts → SaysWhyTry state own }
{}
