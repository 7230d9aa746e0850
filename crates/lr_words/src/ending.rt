// Extensions and addresses.
ghost use Rattle.std.specs.Prelude.{◌≡◌, IfOk};
ghost use Rattle.std.specs.List.{list_any};
ghost use Rattle.lr_rules.specs.Limits.{is_extension, is_address};
ghost use Rattle.lr_rules.specs.Match.{part_end};
ghost use Rattle.lr_rules.specs.Names.{ends_with};
ghost use Rattle.lr_rules.specs.Path.{is_slash};
ghost use Rattle.lr_words.specs.Words.{extension_value, address_value};

use lr_rules::{ConfKind, Memory, Text, ends_with, has_bad_byte};
use std::alloc::Global;

const PART_END: &[u8; 15] = b".logrotate-part";

/// Whether the bytes end as a copy does that isn't whole.
pub fn has_part_end(bytes: &[u8]) -> bool
    ensures { result ≡ ends_with part_end bytes.now }
{
    ends_with(PART_END, bytes)
}

fn has_slash(bytes: &[u8]) -> bool
    ensures { result ≡ list_any is_slash bytes.now }
{
    bytes.iter().any(|b| *b == b'/')
}

fn is_extension(ending: &[u8]) -> bool
    ensures { result ≡ is_extension ending.now }
{
    1 <= ending.len()
        && (ending.len() <= 128
            && (!has_slash(ending) && (!has_bad_byte(ending) && !has_part_end(ending))))
}

/// What `extension` or `addextension` puts last. BadPath: it is empty, has more than 128 bytes, a slash, a newline or a
/// zero byte, or ends with `.logrotate-part`.
#[tactic(auto, unfolding(crate::specs::Words::extension_value))]
pub fn extension(alloc: Global, word: &Text) -> Result<Result<Text, ConfKind>, Memory>
    ensures { IfOk result (λ r. r ≡ extension_value word.now) }
{
    if is_extension(word.bytes()) {
        Ok(Ok(word.copy(alloc)?))
    } else {
        Ok(Err(ConfKind::BadPath))
    }
}

fn is_address(address: &[u8]) -> bool
    ensures { result ≡ is_address address.now }
{
    1 <= address.len() && address.len() <= 256
}

/// The address of `mail`. BadPath: it is empty, or has more than 256 bytes.
#[tactic(auto, unfolding(crate::specs::Words::address_value))]
pub fn address(alloc: Global, word: &Text) -> Result<Result<Text, ConfKind>, Memory>
    ensures { IfOk result (λ r. r ≡ address_value word.now) }
{
    if is_address(word.bytes()) {
        Ok(Ok(word.copy(alloc)?))
    } else {
        Ok(Err(ConfKind::BadPath))
    }
}
