// Words.
use lr_rules::Text;

/// A word of a line: its text without its quotes, and the place and the number of the bytes that it fills.
///
/// `at` counts the bytes before it from the text's first byte on. `len` counts quotes and backslashes too.
#[derive(Drop)]
pub struct Word {
    pub text: Text,
    pub at: usize,
    pub len: usize,
}
