// When the entries of a rotation meet their conditions.
ghost use Rattle.std.specs.Prelude.{◌≡◌, ◌≤◌, ℕ, ℤ, List, length, false, Some};
ghost use Rattle.lr_rules.specs.declared.path.Path.{Path};
ghost use Rattle.lr_rules.specs.declared.rule.Count.TheVariants.{Keep};
ghost use Rattle.lr_host.specs.declared.thing.Thing.TheVariants as thing;
ghost use Rattle.lr_host.specs.declared.entry.Entry.{Entry};
ghost use Rattle.lr_host.specs.declared.entry.Entry.TheVariants as entry;
ghost use Rattle.lr_host.specs.Lists.{AreDistinct};
ghost use Rattle.lr_host.specs.World.{Past, world, names};
ghost use Rattle.lr_host.specs.Opening.{IsJournal};
ghost use Rattle.lr_host.specs.Sets.{LogSet, Dated, order, AreLaterMembers};
ghost use Rattle.lr_host.specs.Runs.{rules_of, SomeRule, has_begun};
ghost use Rattle.lr_host.specs.Safe.{IsSafe};
ghost use Rattle.lr_host.specs.Forward.{IsForward};
ghost use Rattle.lr_laws.specs.Follow.{MayFollow, IsElsewhere};
ghost use Rattle.lr_laws.specs.Room.{HasRoomForOne};

/// The entries of a rotation meet the conditions of their kinds.
pub fn entries_may_follow()
    // An entry whose paths are neither the log, nor where it waits while it is set aside, nor members meets its condition.
    ensures elsewhere { (s : LogSet) (p : Past) (e : Entry) → IsJournal p → IsSafe s p → IsElsewhere s e → MayFollow s p e }

    // So may a dated member that as many later ones are there as the count says.
    ensures dated_member_goes { (s : LogSet) (p : Past) (x : Path) (count : ℕ) (stamp : ℤ) (later : List Path) → IsJournal p
        → IsSafe s p → order s ≡ Dated → s.key x ≡ Some stamp → AreDistinct later
        → AreLaterMembers s.key (names (world p)) stamp later → count ≤ length later
        → SomeRule (rules_of p) s.log (λ r. r.count ≡ Keep count) → MayFollow s p (entry.Unlinks x) }

    // The log of a dated set may be renamed to an unnamed member whose stamp none is later than, now or after a cut, in a run
    // that has begun no rotation of the set.
    ensures dated_log_turns { (s : LogSet) (p : Past) (to : Path) (stamp : ℤ) → IsJournal p → IsSafe s p → order s ≡ Dated
        → s.key to ≡ Some stamp → names (world p) to ≡ thing.Nothing → has_begun s p ≡ false → IsForward s p stamp
        → MayFollow s p (entry.Renames s.log to) }

    // In such a run each generation that a dated member names may get one more later member.
    ensures room_for_one { (s : LogSet) (p : Past) → IsJournal p → IsSafe s p → order s ≡ Dated → has_begun s p ≡ false
        → HasRoomForOne s p }
{}
