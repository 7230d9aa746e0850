// What the looks of a run have to do with the disk.
ghost use Rattle.std.specs.Prelude.{◌≡◌, List, ◌++◌, reverse};
ghost use Rattle.lr_rules.specs.declared.fault.Fault.{Fault};
ghost use Rattle.lr_rules.specs.declared.path.Path.{Path};
ghost use Rattle.lr_rules.specs.declared.rules.Rules.{Rules};
ghost use Rattle.lr_host.specs.declared.entry.Entry.{Entry};
ghost use Rattle.lr_host.specs.Opening.{IsJournal};
ghost use Rattle.lr_host.specs.Quiet.{AreQuiet};
ghost use Rattle.lr_host.specs.Told.{Made};
ghost use Rattle.lr_host.specs.World.{Past};
ghost use Rattle.lr_plan.specs.declared.looks.SetLooks.{SetLooks};
ghost use Rattle.lr_looks.specs.Shown.{ShowsLooks};
ghost use Rattle.lr_laws_looks.specs.True.{AreTrue};

/// The looks of a run, behind entries that change nothing, are true between the moment before those and the one behind the
/// looks, whatever writers did meanwhile: each regular file that a word gives and that stood was found, unless a fault passed
/// the word over; so was each member, numbered or dated, of a log that is kept, each part file of a member, and the file at the
/// path where a log waits that its rule sets aside; and nothing else but what a writer was attached to meanwhile.
pub fn looks_are_true()
    ensures { (reserved : List Path) (rules : Rules) (sets : List SetLooks) (faults : List Fault) (front ts es : List Entry)
        (p q : Past)
        → (s : ShowsLooks reserved rules.sets sets faults ts) → IsJournal p → Made p es q → reverse es ≡ front ++ ts
        → AreQuiet front
        → AreTrue rules.sets s.entries.first.sights sets p q }
{}
