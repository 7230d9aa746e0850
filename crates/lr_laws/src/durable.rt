// The state over the entries of a call.
ghost use Rattle.std.specs.Prelude.{◌≡◌, ◌≢◌, ℕ, List, reverse};
ghost use Rattle.lr_rules.specs.declared.path.Path.{Path};
ghost use Rattle.lr_rules.specs.StatePath.{state_part};
ghost use Rattle.lr_host.specs.declared.entry.Entry.{Entry};
ghost use Rattle.lr_host.specs.Opening.{IsJournal};
ghost use Rattle.lr_host.specs.Quiet.{AttachedOnlySince};
ghost use Rattle.lr_host.specs.Safe.{IsPrefix};
ghost use Rattle.lr_host.specs.Told.{Made};
ghost use Rattle.lr_host.specs.World.{Past};
ghost use Rattle.lr_laws.specs.Renewing.{MayRenew, Renews, IsWritten, HasText};
ghost use Rattle.lr_laws.specs.StateWhole.{IsSettled, WritersSpareState, IsWholeAt};

/// Where a tool leaves its state alone, or writes it last, behind the syncs of its file and of all directories in which it
/// changed a name, the state is the old one or the new one, whole, at each moment from the first to the last and after each
/// cut that is allowed then, whatever writers do that spare it; and where it is the new one, all changes of names that the
/// tool made before are applied.
pub fn state_stays_whole()
    ensures whole { (state : Path) (text : List ℕ) (p q : Past) (es : List Entry) → Made p es q → IsJournal p
        → MayRenew state (λ bytes. bytes ≡ text) (reverse es) → IsSettled state p → WritersSpareState state p q
        → (u : Past) → IsPrefix p u → IsPrefix u q → IsWholeAt state (λ bytes. bytes ≡ text) p u }

    // Behind a writing that was made whole, up to the sync of the state's directory, the state is settled: so the clause above
    // holds of the next call too.
    ensures settled { (state : Path) (dirs : List Path) (text : List ℕ) (p q : Past) (es : List Entry) → Made p es q → IsJournal p
        → IsWritten state dirs text (reverse es) → WritersSpareState state p q → IsSettled state q }
{}

/// Behind a renewing the state's path names a file with the whole text, whatever writers do that are attached neither to that
/// path nor to that of its part file.
pub fn renewed_state_has_its_text()
    ensures { (state : Path) (dirs : List Path) (text : List ℕ) (p q : Past) (es : List Entry) → Made p es q → IsJournal p
        → Renews state dirs text (reverse es) → AttachedOnlySince (λ x. (x ≢ state) × (x ≢ state_part state)) p q
        → HasText state text q }
{}
