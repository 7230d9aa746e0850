// Names of logs.
ghost use Rattle.std.specs.Prelude.{◌≡◌, ◌++◌, Ok, Err, OnOk, IfOk, length, nat_le, if◌then◌else◌};
ghost use Rattle.lr_rules.specs.Limits.{can_be_log};
ghost use Rattle.lr_rules.specs.Match.{is_wild_sign, is_wildcard, literal_path};
ghost use Rattle.lr_rules.specs.declared.fault.ConfKind.TheVariants as kind;
ghost use Rattle.lr_words.specs.Names.{names_log, is_path_part, behind_word_slash, kept_name, literal_value};
ghost use Rattle.lr_words.specs.Names.{pattern_value, log_name_value};

use crate::ending::has_part_end;
use crate::escape::literal;
use crate::path::path_named;
use lr_rules::{ConfKind, Memory, Path, Text, text_of};
use std::alloc::{AllocError, Global};

fn sign(byte: u8) -> bool
    ensures { result ≡ is_wild_sign byte }
{
    byte == b'*' || byte == b'?' || byte == b'['
}

/// Whether a sign of the word that no backslash escapes stands for other characters.
pub fn is_wildcard(word: &[u8]) -> bool
    ensures { result ≡ is_wildcard word.now }
{
    let mut escaped = false;
    for byte in word {
        if escaped {
            escaped = false;
        } else if sign(*byte) {
            return true;
        } else {
            escaped = *byte == b'\\';
        }
    }
    false
}

fn can_be_log(path: &Path) -> bool
    ensures { result ≡ can_be_log path.now }
{
    let bytes = path.bytes();
    let last = path.last();
    bytes.len() <= 2048 && (1 <= last.len() && (last.len() <= 255 && !has_part_end(bytes)))
}

fn names_log(alloc: Global, literal: &[u8]) -> Result<bool, Memory>
    ensures { IfOk result (λ is. is ≡ names_log literal.now) }
{
    match path_named(alloc, literal)? {
        Some(path) => Ok(can_be_log(&path)),
        None => Ok(false),
    }
}

fn step(part: &[u8]) -> bool
    ensures { result ≡ is_path_part part.now }
{
    match part {
        [] => false,
        [one] => *one != b'.',
        [one, two] => !(*one == b'\\' && *two == b'.'),
        _ => true,
    }
}

fn add_part(into: &mut Vec<u8>, part: &[u8]) -> Result<(), AllocError>
    ensures { OnOk result (into.new.items ≡ into.old.items ++ behind_word_slash part.now) }
{
    if step(part) {
        into.push(b'/')?;
        into.extend_from_slice(part)?;
    }
    Ok(())
}

fn kept_bytes(alloc: Global, word: &[u8]) -> Result<Vec<u8>, AllocError>
    ensures { IfOk result (λ bytes. bytes.items ≡ kept_name word.now) }
{
    let mut bytes = Vec::new(alloc);
    for part in word.split(|b| *b == b'/') {
        add_part(&mut bytes, part)?;
    }
    Ok(bytes)
}

fn kept_name(alloc: Global, word: &[u8]) -> Result<Text, Memory>
    ensures { IfOk result (λ name. name ≡ kept_name word.now) }
{
    let bytes = kept_bytes(alloc, word)?;
    text_of(alloc, bytes.as_slice())
}

fn literal_names_log(alloc: Global, word: &[u8]) -> Result<bool, Memory>
    ensures { IfOk result (λ is. is ≡ names_log (literal_path word.now)) }
{
    let literal = literal(alloc, word)?;
    names_log(alloc, literal.as_slice())
}

fn literal_name(alloc: Global, word: &[u8]) -> Result<Result<Text, ConfKind>, Memory>
    ensures { IfOk result (λ r. r ≡ literal_value word.now) }
{
    if !literal_names_log(alloc, word)? {
        return Ok(Err(ConfKind::BadPath));
    }
    Ok(Ok(kept_name(alloc, word)?))
}

fn pattern_of(alloc: Global, path: &Path) -> Result<Result<Text, ConfKind>, Memory>
    ensures { IfOk result (λ r. r ≡ (if nat_le (length path.now) 2048 then Ok path.now else Err kind.BadPath)) }
{
    let bytes = path.bytes();
    if bytes.len() <= 2048 {
        Ok(Ok(text_of(alloc, bytes)?))
    } else {
        Ok(Err(ConfKind::BadPath))
    }
}

fn pattern_name(alloc: Global, word: &[u8]) -> Result<Result<Text, ConfKind>, Memory>
    ensures { IfOk result (λ r. r ≡ pattern_value word.now) }
{
    match path_named(alloc, word)? {
        Some(path) => pattern_of(alloc, &path),
        None => Ok(Err(ConfKind::BadPath)),
    }
}

/// The name of a log, or the pattern of names, as a rule has it: with its backslashes, and without the parts that its
/// path drops. BadPath: the path of a literal name, or a pattern as it stands, is relative, no path, or has more than
/// 2,048 bytes; or a literal name is `/`, ends with `.logrotate-part`, or its last part has more than 255 bytes.
#[tactic(auto, unfolding(crate::specs::Names::log_name_value))]
pub fn log_name(alloc: Global, word: &[u8]) -> Result<Result<Text, ConfKind>, Memory>
    ensures { IfOk result (λ r. r ≡ log_name_value word.now) }
{
    if is_wildcard(word) {
        pattern_name(alloc, word)
    } else {
        literal_name(alloc, word)
    }
}
