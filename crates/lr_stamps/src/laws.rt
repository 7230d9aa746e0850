// Stamps and moments determine each other.
ghost use Rattle.std.specs.Prelude.{◌≡◌, ◌⊎◌, ◌<◌, ℤ, ◌<ℤ◌, ℕ, true};
ghost use Rattle.lr_rules.specs.declared.path.Path.{Path};
ghost use Rattle.lr_rules.specs.declared.rule.Naming.{Naming};
ghost use Rattle.lr_rules.specs.Limits.{is_format, or_none};
ghost use Rattle.lr_rules.specs.Dated.{IsDatedAt, stamp_key};

/// A dated family has one member for each stamp's seconds and each serial number, and a member has one stamp and one
/// serial number.
pub fn stamps_are_names()
    ensures one_member { (n : Naming) (seconds : ℤ) (serial : ℕ) (x y : Path) → or_none is_format n.dated ≡ true
        → IsDatedAt n seconds serial x → IsDatedAt n seconds serial y → x ≡ y }
    ensures one_stamp { (n : Naming) (t u : ℤ) (k l : ℕ) (x : Path) → or_none is_format n.dated ≡ true → IsDatedAt n t k x
        → IsDatedAt n u l x → (t ≡ u) × (k ≡ l) }
{}

/// The key of a moment and a serial number is theirs alone, and it is greater exactly where the moment is later, or the
/// moment is the same and the serial number greater.
pub fn stamp_keys_rise()
    ensures same { (t u : ℤ) (k l : ℕ) → k < 4294967296 → l < 4294967296 → stamp_key t k ≡ stamp_key u l → (t ≡ u) × (k ≡ l) }
    ensures later { (t u : ℤ) (k l : ℕ) → k < 4294967296 → l < 4294967296 → (t <ℤ u) ⊎ ((t ≡ u) × (k < l))
        → stamp_key t k <ℤ stamp_key u l }
    ensures only { (t u : ℤ) (k l : ℕ) → k < 4294967296 → l < 4294967296 → stamp_key t k <ℤ stamp_key u l
        → (t <ℤ u) ⊎ ((t ≡ u) × (k < l)) }
{}
