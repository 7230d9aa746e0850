// Laws of copies.
ghost use Rattle.std.specs.Prelude.{◌≡◌, ◌++◌, ℕ, List};
ghost use Rattle.lr_rules.specs.declared.path.Path.{Path};
ghost use Rattle.lr_host.specs.declared.entry.Entry.{Entry};
ghost use Rattle.lr_host.specs.Reading.{text, AreJoined};
ghost use Rattle.lr_host.specs.Told.{Each};
ghost use Rattle.lr_copy.specs.declared.job.Job.{Job};
ghost use Rattle.lr_copy.specs.declared.job.CopyStop.{CopyStop};
ghost use Rattle.lr_copy.specs.Bytes.{Copying, appended};
ghost use Rattle.lr_copy.specs.Stops.{CopyStopped, EmptiesNone, RenamesNone, IsCutStop, IsEarly};

/// So far in a copy, the reads are a reading of the log from its first byte on, which gave these bytes; and what the appends
/// took, joined, and what they still owe are the same.
pub fn copies_take_what_they_read()
    ensures { (from to : Path) (bytes owed : List ℕ) (ts : List Entry) → Copying from to bytes owed ts
        → (text ts ≡ bytes) × AreJoined 0 ts × (appended ts ++ owed ≡ bytes) }
{}

/// A copy that broke off emptied no file, but for one whose truncation failed.
pub fn stopped_copies_keep_the_log()
    ensures { (job : Job) (why : CopyStop) (ts : List Entry) → CopyStopped job why ts → (IsCutStop why → ⊥) → Each EmptiesNone ts }
{}

/// One that broke off before the sync of its part file renamed none: so too where it is too long, or its path is taken.
pub fn unnamed_copies_rename_nothing()
    ensures { (job : Job) (why : CopyStop) (ts : List Entry) → CopyStopped job why ts → IsEarly why → Each RenamesNone ts }
{}
