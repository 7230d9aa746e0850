// Names in front of a line, between quotes or as they are.
ghost use Rattle.std.specs.Prelude.{◌≡◌, ◌≤◌, length, false, IfOk, option_map};
ghost use Rattle.std.specs.List.{position_or_len};
ghost use Rattle.lr_rules.specs.Bytes.{is_blank};
ghost use Rattle.lr_state.specs.Reading.{seen_name, quoted, bare, name_in, checked};
ghost use Rattle.lr_state.specs.Table.{is_name};

use crate::moment::blank;
use lr_rules::{has_bad_byte, is_utf8};
use std::alloc::{AllocError, Global};

/// Whether these bytes are the name of a log.
#[tactic(auto, unfolding(crate::specs::Table::is_name))]
pub(crate) fn good(name: &[u8]) -> bool
    ensures { result ≡ is_name name.now }
{
    let text = is_utf8(name);
    let bad = has_bad_byte(name);
    !name.is_empty() && name.len() <= 4096 && text && !bad
}

/// The name up to the closing quote, and what is behind that.
fn between_quotes<'a>(
    alloc: Global,
    text: &'a [u8],
) -> Result<Option<(Vec<u8>, &'a [u8])>, AllocError>
    ensures { IfOk result (λ o. option_map seen_name o ≡ quoted false text.now) }
{
    let mut name = Vec::new(alloc);
    let mut escape = false;
    for (at, byte) in text.iter().enumerate() {
        if escape {
            name.push(*byte)?;
            escape = false;
        } else if *byte == b'"' {
            return Ok(Some((name, &text[at + 1..])));
        } else if *byte == b'\\' {
            escape = true;
        } else {
            name.push(*byte)?;
        }
    }
    Ok(None)
}

fn name_end(line: &[u8]) -> usize
    ensures bound { result ≤ length line.now }
    ensures end { result ≡ position_or_len is_blank line.now }
{
    line.iter().position(|b| blank(*b)).unwrap_or(line.len())
}

fn unquoted<'a>(alloc: Global, line: &'a [u8]) -> Result<(Vec<u8>, &'a [u8]), AllocError>
    ensures { IfOk result (λ x. seen_name x ≡ bare line.now) }
{
    let end = name_end(line);
    let name = line[..end].to_vec(alloc)?;
    Ok((name, &line[end..]))
}

#[tactic(auto, unfolding(crate::specs::Reading::name_in))]
fn front<'a>(alloc: Global, line: &'a [u8]) -> Result<Option<(Vec<u8>, &'a [u8])>, AllocError>
    ensures { IfOk result (λ o. option_map seen_name o ≡ name_in line.now) }
{
    match line {
        [b'"', rest @ ..] => between_quotes(alloc, rest),
        [b'/', ..] => {
            let named = unquoted(alloc, line)?;
            Ok(Some(named))
        }
        _ => Ok(None),
    }
}

/// The name of a log in front of a line, and what is behind it.
pub(crate) fn name<'a>(
    alloc: Global,
    line: &'a [u8],
) -> Result<Option<(Vec<u8>, &'a [u8])>, AllocError>
    ensures { IfOk result (λ o. option_map seen_name o ≡ checked (name_in line.now)) }
{
    match front(alloc, line)? {
        Some((name, rest)) if good(name.as_slice()) => Ok(Some((name, rest))),
        _ => Ok(None),
    }
}
