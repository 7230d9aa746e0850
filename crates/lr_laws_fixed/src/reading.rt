// What entries fix of a reading.
ghost use Rattle.std.specs.Prelude.{◌≡◌, ◌++◌, List};
ghost use Rattle.lr_rules.specs.declared.path.Path.{Path};
ghost use Rattle.lr_conf.specs.Meaning.{Meaning};
ghost use Rattle.lr_host.specs.declared.entry.Entry.{Entry};
ghost use Rattle.lr_host.specs.Counted.{calls_in};
ghost use Rattle.lr_include.specs.Stages.{Reads};

/// Entries fix what paths give: where the same entries begin with those of two readings of the same paths, and neither
/// tells a failed call, both mean the same and left the same entries, in whatever order the listings told the names.
pub fn visits_are_fixed()
    ensures { (paths : List Path) (m n : Meaning) (ts us vs ws : List Entry)
        → Reads paths m ts → Reads paths n us → calls_in m.faults ≡ 0 → calls_in n.faults ≡ 0
        → ts ++ vs ≡ us ++ ws
        → (m ≡ n) × (ts ≡ us) × (vs ≡ ws) }
{}
