// What a word says meets the limit of its kind.
ghost use Rattle.std.specs.Prelude.{◌≡◌, ℕ, List, true, false, Ok};
ghost use Rattle.lr_rules.specs.Limits.{is_log_word, is_extension, is_address, is_olddir};
ghost use Rattle.lr_rules.specs.Match.{is_wildcard};
ghost use Rattle.lr_words.specs.Names.{IsLogWord, log_name_value};
ghost use Rattle.lr_words.specs.Words.{extension_value, address_value, olddir_value};

/// A value meets the limit of a rule for its kind, whatever the word is; and a name that is no pattern gives the path of
/// a log.
pub fn words_meet_limits()
    ensures log_name { (word : List ℕ) (name : List ℕ) → log_name_value word ≡ Ok name → is_log_word name ≡ true }
    ensures literal { (word : List ℕ) (name : List ℕ) → is_wildcard word ≡ false → log_name_value word ≡ Ok name → IsLogWord name }
    ensures extension { (word : List ℕ) (ending : List ℕ) → extension_value word ≡ Ok ending → is_extension ending ≡ true }
    ensures address { (word : List ℕ) (address : List ℕ) → address_value word ≡ Ok address → is_address address ≡ true }
    ensures olddir { (word : List ℕ) (dir : List ℕ) → olddir_value word ≡ Ok dir → is_olddir dir ≡ true }
{}
