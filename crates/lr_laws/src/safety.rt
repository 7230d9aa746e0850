// How the promise goes on.
ghost use Rattle.std.specs.Prelude.{◌≡◌, ℕ, Bool, List, Option};
ghost use Rattle.lr_host.specs.declared.entry.Entry.{Entry};
ghost use Rattle.lr_host.specs.declared.journal.Opening.{Opening};
ghost use Rattle.lr_host.specs.World.{Past, Opens, ◌▸◌, world, names};
ghost use Rattle.lr_host.specs.Fits.{Fits};
ghost use Rattle.lr_host.specs.Opening.{IsJournal, IsValid};
ghost use Rattle.lr_host.specs.Told.{Made, Left};
ghost use Rattle.lr_host.specs.Sets.{LogSet, Numbered, order};
ghost use Rattle.lr_host.specs.Safe.{IsSafe, IsMachines};
ghost use Rattle.lr_host.specs.Steady.{NoneAttached};
ghost use Rattle.lr_laws.specs.Follow.{MayFollow};
ghost use Rattle.lr_host.specs.Steps.{CanAll, TookSteps};
ghost use Rattle.lr_laws.specs.Room.{MayMoveOn};
ghost use Rattle.lr_laws.specs.Rotation.{IsRotation, LogFits};
ghost use Rattle.lr_laws.specs.Stays.{StaysSafe, Rotates};
ghost use Rattle.lr_host.specs.declared.journal.Journal.{Journal};

/// A journal without entries is safe.
pub fn opening_is_safe()
    ensures { (s : LogSet) (o : Opening) → IsValid o → IsSafe s (Opens o) }
{}

/// Where a journal is safe, it is safe behind an entry that meets its condition, and after each cut that is allowed there.
pub fn safe_goes_on()
    ensures { (s : LogSet) (p : Past) (e : Entry) → IsJournal (p ▸ e) → IsSafe s p → MayFollow s p e → IsSafe s (p ▸ e) }
{}

/// So it is behind each cut that is allowed.
pub fn cut_stays_safe()
    ensures { (s : LogSet) (p : Past) (c : Entry) → IsJournal p → IsSafe s p → IsMachines c → Fits (world p) c → IsSafe s (p ▸ c) }
{}

/// So it is behind the entries of one rotation of a numbered set, with entries aside and writers' entries between them:
/// members below the limit move up, highest place first, then the log, which is a file there, or it is set aside, or what
/// waits there is taken up again; those past the count or too old go. Of the entries aside nothing else is asked.
pub fn rotation_stays_safe()
    ensures entries { (s : LogSet) (p q : Past) (limit : ℕ) (es : List Entry) → order s ≡ Numbered → IsJournal p → IsSafe s p
        → MayMoveOn s p limit → Made p es q → LogFits s (names (world p)) es → IsRotation s p limit es → NoneAttached s q
        → IsSafe s q }

    // Over calls that leave the change entries of a first part of these steps, each set is safe of which they are a rotation.
    ensures calls { (steps : List Entry) (ok : Bool) (before after : Option Journal) → Left (TookSteps steps ok) before after
        → CanAll before steps → StaysSafe (Rotates steps) before after }
{}
