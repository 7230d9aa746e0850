// How the promise goes on over the entries of a dated rotation.
ghost use Rattle.std.specs.Prelude.{◌≡◌, ℕ, ℤ, Bool, true, false, List, Option, Some, None};
ghost use Rattle.lr_rules.specs.declared.clock.Clock.{Clock};
ghost use Rattle.lr_rules.specs.declared.path.Path.{Path};
ghost use Rattle.lr_rules.specs.declared.rule.Format.{Format};
ghost use Rattle.lr_rules.specs.declared.rule.Naming.{Naming};
ghost use Rattle.lr_rules.specs.Dated.{IsDatedAt};
ghost use Rattle.lr_rules.specs.Limits.{is_format};
ghost use Rattle.lr_rules.specs.Path.{path_fault};
ghost use Rattle.lr_host.specs.declared.entry.Entry.{Entry};
ghost use Rattle.lr_host.specs.declared.journal.Journal.{Journal};
ghost use Rattle.lr_host.specs.World.{Past, world, names};
ghost use Rattle.lr_host.specs.Opening.{IsJournal};
ghost use Rattle.lr_host.specs.Told.{Made, Left};
ghost use Rattle.lr_host.specs.Steps.{CanAll, TookSteps};
ghost use Rattle.lr_host.specs.Sets.{LogSet, Dated, order};
ghost use Rattle.lr_host.specs.Runs.{has_begun};
ghost use Rattle.lr_host.specs.Forward.{IsForward};
ghost use Rattle.lr_host.specs.Safe.{IsSafe, KeepsSafe};
ghost use Rattle.lr_host.specs.Steady.{NoneAttached};
ghost use Rattle.lr_laws.specs.Room.{HasRoomForOne};
ghost use Rattle.lr_laws.specs.Rotation.{LogFits};
ghost use Rattle.lr_laws.specs.Forward.{IsForwardFor};
ghost use Rattle.lr_laws.specs.DatedRotation.{is_log_turned, IsDatedRotation, IsDatedRetirement};
ghost use Rattle.lr_laws.specs.Stays.{StaysSafe, RotatesDated, KeepsSafeWhere};

/// A dated set that is safe is safe behind the entries of one rotation to a member that none is later than, with entries
/// aside and writers' entries between them, in a run that has begun no rotation of the set: the log, which is a file there,
/// goes to that member, which names nothing, or it is set aside, or what waits there is taken up again; then those go that
/// as many later ones follow as the count says, or that are too old; and the log is made anew. Of the entries aside nothing
/// else is asked.
pub fn dated_rotation_stays_safe()
    ensures safe { (s : LogSet) (p q : Past) (newest : ℤ) (es : List Entry) → order s ≡ Dated → IsJournal p → IsSafe s p
        → has_begun s p ≡ false → IsForward s p newest → Made p es q → LogFits s (names (world p)) es
        → IsDatedRotation s p newest es → NoneAttached s q → IsSafe s q }

    // As long as no member got a file by such entries, each that a member names may get one more later member, and none is
    // later than the one that the rotation is to: so a copy may get that name.
    ensures stays_open { (s : LogSet) (p q : Past) (newest : ℤ) (es : List Entry) → order s ≡ Dated → IsJournal p → IsSafe s p
        → has_begun s p ≡ false → IsForward s p newest → Made p es q → LogFits s (names (world p)) es
        → IsDatedRotation s p newest es → NoneAttached s q → is_log_turned s es ≡ false → HasRoomForOne s q × IsForward s q newest }

    // Behind that, where members go that may and what waited aside, with entries aside and writers' between them, the set stays
    // safe.
    ensures retirement { (s : LogSet) (p q : Past) (es : List Entry) → order s ≡ Dated → IsJournal p → IsSafe s p → Made p es q
        → IsDatedRetirement s p es → NoneAttached s q → IsSafe s q }

    // Over calls that leave the change entries of a first part of these steps, each set is safe of which they are such a
    // rotation.
    ensures calls { (steps : List Entry) (ok : Bool) (before after : Option Journal) → Left (TookSteps steps ok) before after
        → CanAll before steps → StaysSafe (RotatesDated steps) before after }

    // A call that keeps each set safe keeps those safe of which a clock's condition holds.
    ensures without_clock { (clock : Clock) (before after : Option Journal) → KeepsSafe before after
        → KeepsSafeWhere (IsForwardFor clock) before after }

    // Such sets are there: of each log, and of each dated naming of a format within its limits by which the log itself is no
    // member.
    ensures sets_exist { (log : Path) (n : Naming) (f : Format) → path_fault log ≡ None → n.dated ≡ Some f → is_format f ≡ true
        → ((t : ℤ) (k : ℕ) → IsDatedAt n t k log → ⊥)
        → (s : LogSet) × (s.log ≡ log) × (s.naming ≡ n) }
{}
