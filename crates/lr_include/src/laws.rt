// Laws of the definitions.
ghost use Rattle.std.specs.Prelude.{◌≡◌, Bool, List, [], All, Option, filter};
ghost use Rattle.lr_rules.specs.declared.path.Path.{Path};
ghost use Rattle.lr_conf.specs.Meaning.{Meaning};
ghost use Rattle.lr_host.specs.declared.entry.Entry.{Entry};
ghost use Rattle.lr_host.specs.Steps.{is_change};
ghost use Rattle.lr_host.specs.Quiet.{AreQuiet};
ghost use Rattle.lr_host.specs.Told.{Each};
ghost use Rattle.lr_host.specs.Reading.{IsShortRead};
ghost use Rattle.lr_include.specs.declared.visit.Visit.{Visit};
ghost use Rattle.lr_include.specs.Allowed.{IsAllowed, AreAllowedVisits};
ghost use Rattle.lr_include.specs.Stages.{visits_mean, Reads};
ghost use Rattle.lr_include.specs.Lacking.{LacksReading};

/// Where no call of the visits failed, they mean no failed call; and no fault is of another kind than those two.
pub fn visits_tell_their_calls()
    ensures { (calls : Bool) (paths : List Path) (visits : List (Option Visit)) → AreAllowedVisits calls visits
        → All (IsAllowed calls) (visits_mean paths visits).faults }
{}

/// The reading of all paths changes nothing.
pub fn visits_change_nothing()
    ensures { (paths : List Path) (m : Meaning) (ts : List Entry) → Reads paths m ts → filter is_change ts ≡ [] }
{}

/// Nor does a reading that ends for want of memory.
pub fn lacking_changes_nothing()
    ensures { (paths : List Path) (ts : List Entry) → LacksReading paths ts → filter is_change ts ≡ [] }
{}

/// Each entry of a reading, whole or not, is quiet: one of the tool that changes nothing and starts no run.
pub fn readings_are_quiet()
    ensures whole { (paths : List Path) (m : Meaning) (ts : List Entry) → Reads paths m ts → AreQuiet ts }
    ensures lacking { (paths : List Path) (ts : List Entry) → LacksReading paths ts → AreQuiet ts }
{}

/// No read of a reading, whole or not, gives more than 65,536 bytes.
pub fn readings_are_short()
    ensures whole { (paths : List Path) (m : Meaning) (ts : List Entry) → Reads paths m ts → Each IsShortRead ts }
    ensures lacking { (paths : List Path) (ts : List Entry) → LacksReading paths ts → Each IsShortRead ts }
{}
