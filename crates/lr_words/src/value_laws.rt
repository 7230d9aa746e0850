// What a word says meets the limit of its kind.
ghost use Rattle.std.specs.Prelude.{◌≡◌, ℕ, List, Result, true, Ok, nat_le};
ghost use Rattle.lr_rules.specs.declared.fault.ConfKind.{ConfKind};
ghost use Rattle.lr_rules.specs.declared.rule.Count.{Count};
ghost use Rattle.lr_rules.specs.Limits.{is_small, is_size, is_mode, is_count};
ghost use Rattle.lr_rules.specs.declared.rule.Piece.{Piece};
ghost use Rattle.lr_words.specs.Formats.{FormatSays, format_value};
ghost use Rattle.lr_words.specs.Numbers.{number_value, count_value, weekday_value, size_value, mode_value};

/// A value meets the limit of a rule for its kind, whatever the word is.
pub fn values_meet_limits()
    ensures number { (word : List ℕ) (n : ℕ) → number_value word ≡ Ok n → is_small n ≡ true }
    ensures count { (word : List ℕ) (n : Count) → count_value word ≡ Ok n → is_count n ≡ true }
    ensures weekday { (word : List ℕ) (n : ℕ) → weekday_value word ≡ Ok n → nat_le n 7 ≡ true }
    ensures size { (word : List ℕ) (n : ℕ) → size_value word ≡ Ok n → is_size n ≡ true }
    ensures mode { (word : List ℕ) (n : ℕ) → mode_value word ≡ Ok n → is_mode n ≡ true }
{}

/// The format of a date that a word says is one value.
#[tactic(auto, using(crate::proofs::ReadBack::one_format))]
pub fn one_format()
    ensures { (word : List ℕ) (r : Result (List Piece) ConfKind) → FormatSays word r → r ≡ format_value word }
{}
