// What each kind of entry does to what is kept now.
ghost use Rattle.std.specs.Prelude.{◌≡◌};
ghost use Rattle.lr_host.specs.declared.entry.Entry.{Entry};
ghost use Rattle.lr_host.specs.World.{Past, ◌▸◌};
ghost use Rattle.lr_host.specs.Told.{IsWriters};
ghost use Rattle.lr_host.specs.Opening.{IsJournal};
ghost use Rattle.lr_host.specs.Sets.{LogSet, Dated, order};
ghost use Rattle.lr_host.specs.Kept.{IsKept};
ghost use Rattle.lr_host.specs.Safe.{NoneToLog};
ghost use Rattle.lr_host.specs.Steady.{AttachesNoMember};
ghost use Rattle.lr_host.specs.Quiet.{ChangesNothing, ChangesSomething};
ghost use Rattle.lr_laws.specs.Follow.{MayFollow, IsElsewhere};

/// What is kept stays so behind each entry that meets the condition of its kind.
pub fn entries_keep()
    // A writer's entry keeps what is kept; of a dated set, where it attaches no member.
    ensures writers { (s : LogSet) (p : Past) (e : Entry) → IsJournal (p ▸ e) → NoneToLog s p → IsKept s p → IsWriters e
        → (order s ≡ Dated → AttachesNoMember s e) → IsKept s (p ▸ e) }

    // An entry of the tool that changes no name and no byte keeps what is kept: without a condition.
    ensures quiet { (s : LogSet) (p : Past) (e : Entry) → IsKept s p → ChangesNothing e → IsKept s (p ▸ e) }

    // An entry of the tool that changes a name or bytes keeps what is kept under the condition of its kind.
    ensures changes { (s : LogSet) (p : Past) (e : Entry) → IsJournal (p ▸ e) → NoneToLog s p → IsKept s p → ChangesSomething e
        → MayFollow s p e → IsKept s (p ▸ e) }

    // It does so without a condition where its paths are neither the log, nor where it waits while it is set aside, nor
    // members.
    ensures elsewhere { (s : LogSet) (p : Past) (e : Entry) → IsJournal (p ▸ e) → NoneToLog s p → IsKept s p → ChangesSomething e
        → IsElsewhere s e → IsKept s (p ▸ e) }
{}
