// The words of the program.
ghost use Rattle.std.specs.Prelude.{◌≡◌, ◌≤◌, ◌↔◌, ◌∷◌, [], ℕ, Some, decimal, IsTrue};

use itoa::Buffer;
use lr_rules::Text;

// Whether the text is this number, in plain decimal.
fn is_number(text: &Text, number: u32) -> bool
    ensures { IsTrue result ↔ (text.now ≡ decimal number) }
{
    let mut digits = Buffer::new();
    digits.format(number).as_bytes() == text.bytes()
}

fn number_of(text: &Text) -> Option<u32>
    ensures { (n : ℕ) → (result ≡ Some n) ↔ ((text.now ≡ decimal n) × (1 ≤ n) × (n ≤ 64)) }
{
    for number in 1..65 {
        if is_number(text, number) {
            return Some(number);
        }
    }
    None
}

/// How many logs the words ask for; None exactly where they aren't one plain decimal word from 1 to 64. It takes no memory.
pub fn trial_words(words: &[Text]) -> Option<u32>
    ensures { (n : ℕ) → (result ≡ Some n) ↔ ((words.now ≡ decimal n ∷ []) × (1 ≤ n) × (n ≤ 64)) }
{
    match words {
        [word] => number_of(word),
        _ => None,
    }
}
