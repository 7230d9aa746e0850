// Laws of the writing of a state file.
ghost use Rattle.std.specs.Prelude.{ℕ, Bool, List, [], Option};
ghost use Rattle.lr_rules.specs.declared.path.Path.{Path};
ghost use Rattle.lr_rules.specs.declared.fault.Fault.{Fault};
ghost use Rattle.lr_host.specs.declared.entry.Entry.{Entry};
ghost use Rattle.lr_host.specs.declared.journal.Journal.{Journal};
ghost use Rattle.lr_plan.specs.Steps.{state_steps};
ghost use Rattle.lr_plan.specs.Course.{Course};
ghost use Rattle.lr_plan.specs.Asking.{CanMake};
ghost use Rattle.lr_writing.specs.Fits.{CanBegin};
ghost use Rattle.lr_writing.specs.Named.{StateIsNamed, NamedLast};

/// Whatever the steps of the writing left, whole or broken off: the state's path is touched by one rename alone, and
/// before that the part file was made, got the whole text and was synced, and each of the directories was synced.
pub fn state_is_named_last()
    ensures { (state : Path) (stale : Bool) (dirs : List Path) (text : List ℕ) (faults : List Fault) (ts : List Entry)
        → Course (state_steps state stale dirs text) [] faults ts → NamedLast state dirs text ts }
{}

/// Where no step failed, the state's path has the new file, and that is durable.
pub fn whole_writing_names_state()
    ensures { (state : Path) (stale : Bool) (dirs : List Path) (text : List ℕ) (ts : List Entry)
        → Course (state_steps state stale dirs text) [] [] ts → StateIsNamed state dirs text ts }
{}

/// What `write_state` asks for holds where the state's directory and the others stand, the state's path is that of a file
/// or free, and the old part file that was seen is still there, whatever writers do.
pub fn writing_fits()
    ensures { (told : Option Journal) (state : Path) (stale : Bool) (dirs : List Path) (text : List ℕ)
        → CanBegin told state stale dirs → CanMake told (state_steps state stale dirs text) }
{}
