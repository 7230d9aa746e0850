// A state that is written behind one rename, worked through.
ghost use Rattle.std.specs.Prelude.{◌≡◌};
ghost use Rattle.lr_host.specs.Opening.{IsJournal};
ghost use Rattle.lr_host.specs.Safe.{IsPrefix};
ghost use Rattle.lr_host.specs.World.{Past, Opens};
ghost use Rattle.lr_laws.specs.Chain.{found};
ghost use Rattle.lr_laws.specs.StateWhole.{IsSettled, IsWholeAt};
ghost use Rattle.lr_laws.specs.DurableWorked.{state, text, in_order, not_synced, made_since, too_early, in_place};

/// Where the directory of the rename is synced before the state gets its new file, the state is whole at each moment, and
/// after each cut. In the other orders it is not.
pub fn in_order_is_whole()
    ensures settled { IsSettled state (Opens found) }
    ensures whole { (u : Past) → IsPrefix (Opens found) u → IsPrefix u in_order
        → IsWholeAt state (λ bytes. bytes ≡ text) (Opens found) u }

    // Where it isn't, a cut may leave the new state and undo the rename.
    ensures not_synced_journal { IsJournal not_synced }
    ensures not_synced_lost { IsWholeAt state (λ bytes. bytes ≡ text) (Opens found) not_synced → ⊥ }

    // So too where it unlinks a file that a writer made in the call: a cut may leave the new state and bring the file back.
    ensures made_since_journal { IsJournal made_since }
    ensures made_since_lost { IsWholeAt state (λ bytes. bytes ≡ text) (Opens found) made_since → ⊥ }

    // Where the state gets a file that isn't synced, a cut may leave a state without its text.
    ensures too_early_journal { IsJournal too_early }
    ensures too_early_lost { IsWholeAt state (λ bytes. bytes ≡ text) (Opens found) too_early → ⊥ }

    // Where the text is written in place, there is a moment at which a first part of it stands.
    ensures in_place_journal { IsJournal in_place }
    ensures in_place_lost { IsWholeAt state (λ bytes. bytes ≡ text) (Opens found) in_place → ⊥ }
{}
