// That no later member comes.
ghost use Rattle.std.specs.Prelude.{◌≡◌, ◌≤◌, ℕ, ℤ};
ghost use Rattle.lr_rules.specs.Dated.{stamp_key};
ghost use Rattle.lr_host.specs.declared.entry.Entry.{Entry};
ghost use Rattle.lr_host.specs.World.{Past, ◌▸◌, world, names};
ghost use Rattle.lr_host.specs.Told.{IsWriters};
ghost use Rattle.lr_host.specs.Sets.{LogSet, Dated, order};
ghost use Rattle.lr_host.specs.Steady.{AttachesNoMember};
ghost use Rattle.lr_host.specs.Forward.{IsForward};
ghost use Rattle.lr_host.specs.Quiet.{ChangesNothing};
ghost use Rattle.lr_laws.specs.Rotation.{IsAside};
ghost use Rattle.lr_laws.specs.Forward.{IsForwardBy, IsNextSerial};

/// Where the moments of a dated set haven't gone ahead of this one, no member is later than that of this moment with the
/// serial number that comes next.
pub fn moment_is_forward()
    ensures moment { (s : LogSet) (p : Past) (seconds : ℤ) (serial : ℕ) → order s ≡ Dated → IsForwardBy s p seconds
        → IsNextSerial s.naming (names (world p)) seconds serial → serial ≤ 4294967295 → IsForward s p (stamp_key seconds serial) }

    // No later member comes to a dated set by an entry of a writer that attaches none, by one of the tool that changes nothing,
    // or by one on no path of the set.
    ensures writers { (s : LogSet) (p : Past) (e : Entry) (newest : ℤ) → IsWriters e → AttachesNoMember s e
        → IsForward s p newest → IsForward s (p ▸ e) newest }
    ensures quiet { (s : LogSet) (p : Past) (e : Entry) (newest : ℤ) → ChangesNothing e → IsForward s p newest
        → IsForward s (p ▸ e) newest }
    ensures aside { (s : LogSet) (p : Past) (e : Entry) (newest : ℤ) → IsAside s e → IsForward s p newest
        → IsForward s (p ▸ e) newest }
{}
