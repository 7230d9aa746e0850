// Bytes that are text.
ghost use Rattle.std.specs.Prelude.{◌≡◌, IfOk, IsUtf8};
ghost use Rattle.std.specs.List.{list_any};
ghost use Rattle.lr_lex.specs.Items.{is_text, is_zero};

use lr_rules::{Memory, Text, TextFault, is_utf8};
use std::alloc::Global;

fn has_zero(bytes: &[u8]) -> bool
    ensures { result ≡ list_any is_zero bytes.now }
{
    bytes.iter().any(|b| *b == 0)
}

/// Whether bytes are UTF-8 and none is zero.
#[tactic(auto, unfolding(crate::specs::Items::is_text))]
pub fn is_text(bytes: &[u8]) -> bool
    ensures { result ≡ is_text bytes.now }
{
    is_utf8(bytes) && !has_zero(bytes)
}

/// The text of bytes that are UTF-8, as each caller shows.
pub fn utf8_text(alloc: Global, bytes: &[u8]) -> Result<Text, Memory>
    requires { IsUtf8 bytes.now }
    ensures { IfOk result (λ text. text ≡ bytes.now) }
{
    match Text::new(alloc, bytes) {
        Ok(text) => Ok(text),
        Err(TextFault::NotUtf8) => unreachable!(),
        Err(TextFault::Memory) => Err(Memory),
    }
}
