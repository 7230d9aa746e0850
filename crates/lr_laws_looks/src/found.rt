// What the entries of a call show: what its word came to, and of the disk what it found.
ghost use Rattle.std.specs.Prelude.{◌≡◌, ◌≢◌, ◌∷◌, [], ℕ, false, List, None, Ok, map, reverse, IsUtf8};
ghost use Rattle.std.specs.Ordering.{nat_cmp};
ghost use Rattle.std.specs.Cmp.Lexicographic.{slice_cmp};
ghost use Rattle.std.specs.List.Sorted.{IsStrictlySortedBy};
ghost use Rattle.lr_rules.specs.declared.path.Path.{Path};
ghost use Rattle.lr_rules.specs.Match.{WordGives, is_wildcard, literal_path};
ghost use Rattle.lr_rules.specs.Path.{path_fault};
ghost use Rattle.lr_host.specs.declared.entry.Entry.{Entry};
ghost use Rattle.lr_host.specs.declared.thing.Thing.TheVariants as thing;
ghost use Rattle.lr_host.specs.Fits.{IsFileAt};
ghost use Rattle.lr_host.specs.Opening.{IsJournal};
ghost use Rattle.lr_host.specs.Told.{Made};
ghost use Rattle.lr_host.specs.World.{Past, world, names};
ghost use Rattle.lr_glob.specs.declared.found.Found.{Found};
ghost use Rattle.lr_glob.specs.Words.{Comes};
ghost use Rattle.lr_laws_looks.specs.Finds.{FindsFile};

/// A call of `expand` that gives paths finds each regular file that its word gives and that stood as it began, whatever
/// writers do meanwhile; of a literal word what stood at its one path, of any kind. Where a call fails, where a match is too
/// long or there are too many, it gives no paths.
pub fn all_that_stood_are_found()
    ensures file { (p q : Past) (es : List Entry) (word : List ℕ) (room : ℕ) (found : List Found) → IsUtf8 word → IsJournal p
        → Made p es q → Comes word room (Ok found) (reverse es)
        → (x : Path) → path_fault x ≡ None → IsFileAt (names (world p)) x → WordGives word x → FindsFile x found }
    ensures literal { (p q : Past) (es : List Entry) (word : List ℕ) (room : ℕ) (found : List Found) → is_wildcard word ≡ false
        → Made p es q → Comes word room (Ok found) (reverse es)
        → path_fault (literal_path word) ≡ None → names (world p) (literal_path word) ≢ thing.Nothing
        → (f : Found) × (found ≡ f ∷ []) × (f.path ≡ literal_path word) }

    // The paths that it finds are in order of bytes, and none of them stands twice.
    ensures order { (p q : Past) (es : List Entry) (word : List ℕ) (room : ℕ) (found : List Found) → Made p es q
        → Comes word room (Ok found) (reverse es)
        → IsStrictlySortedBy (slice_cmp nat_cmp) (map (λ f. f.path) found) }
{}
