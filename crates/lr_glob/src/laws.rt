// What a call leaves, whatever it answers, and what it finds.
ghost use Rattle.std.specs.Prelude.{◌≡◌, ◌≤◌, ℕ, true, false, List, Result, Ok, Some, reverse, IsUtf8};
ghost use Rattle.lr_rules.specs.declared.path.Path.{Path};
ghost use Rattle.lr_rules.specs.Match.{WordGives, is_wildcard};
ghost use Rattle.lr_rules.specs.Path.{has_empty_part};
ghost use Rattle.lr_host.specs.declared.entry.Entry.{Entry};
ghost use Rattle.lr_host.specs.declared.entry.Entry.TheVariants as entry;
ghost use Rattle.lr_host.specs.Lists.{IsIn};
ghost use Rattle.lr_host.specs.Quiet.{AreQuiet};
ghost use Rattle.lr_host.specs.Told.{Made};
ghost use Rattle.lr_host.specs.World.{Past};
ghost use Rattle.lr_glob.specs.declared.found.Found.{Found};
ghost use Rattle.lr_glob.specs.declared.found.GlobStop.{GlobStop};
ghost use Rattle.lr_glob.specs.Listings.{listings_of};
ghost use Rattle.lr_host.specs.Looking.{AreLooking};
ghost use Rattle.lr_glob.specs.Sought.{IsSought};
ghost use Rattle.lr_glob.specs.Words.{Comes, Stopped};

/// A call of `expand` leaves looks and listings alone, which change nothing, whatever it answers.
pub fn words_only_look()
    ensures given { (word : List ℕ) (room : ℕ) (result : Result (List Found) GlobStop) (ts : List Entry) → Comes word room result ts
        → AreLooking ts }
    ensures stopped { (word : List ℕ) (room : ℕ) (why : GlobStop) (ts : List Entry) → Stopped word room why ts → AreLooking ts }
    ensures quiet { (ts : List Entry) → AreLooking ts → AreQuiet ts }
{}

/// A call of `expand` lists no directory twice, whatever it answers, however many parts its word has: of entries that it
/// left in a journal, at most one is a listing of this directory. Writers may act between them.
pub fn directories_are_listed_once()
    ensures given { (p q : Past) (es : List Entry) (word : List ℕ) (room : ℕ) (result : Result (List Found) GlobStop) → Made p es q
        → Comes word room result (reverse es) → (dir : Path) → listings_of dir (reverse es) ≤ 1 }
    ensures stopped { (p q : Past) (es : List Entry) (word : List ℕ) (room : ℕ) (why : GlobStop) → Made p es q
        → Stopped word room why (reverse es) → (dir : Path) → listings_of dir (reverse es) ≤ 1 }
{}

/// What a call of `expand` finds are paths that the word gives: of a wildcard without empty parts, as those of a
/// configuration are, regular files at paths that it matches part by part, and no copies that aren't whole yet; of a
/// literal word its one path. What was seen of each is what a look of the call at its path saw.
pub fn found_are_sought()
    ensures wildcard { (p q : Past) (es : List Entry) (word : List ℕ) (room : ℕ) (found : List Found) → IsUtf8 word
        → is_wildcard word ≡ true → has_empty_part word ≡ false
        → Made p es q → Comes word room (Ok found) (reverse es) → (f : Found) → IsIn f found → IsSought word f }
    ensures literal { (word : List ℕ) (room : ℕ) (found : List Found) (ts : List Entry) → is_wildcard word ≡ false
        → Comes word room (Ok found) ts → (f : Found) → IsIn f found → WordGives word f.path }
    ensures seen { (word : List ℕ) (room : ℕ) (found : List Found) (ts : List Entry) → Comes word room (Ok found) ts → (f : Found)
        → IsIn f found → IsIn (entry.Look f.path (Some f.seen)) ts }
{}
