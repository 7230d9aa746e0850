// The signs of a line.
ghost use Rattle.std.specs.Prelude.{◌≡◌, [], IfOk, OnOk, length};
ghost use Rattle.lr_rules.specs.Bytes.{is_blank};
ghost use Rattle.lr_lex.specs.Signs.{sign_of, quote_behind, escape, signs, left_open, line_signs, HasLength};

use lr_rules::{Listed, Memory};
use std::alloc::Global;

/// What a byte of a line is.
#[derive(Clone, Copy)]
pub enum Sign {
    /// A blank outside quotes, which parts words.
    Blank,
    /// A quote, or a backslash that stands for nothing itself. It belongs to its word and adds nothing to it.
    Mark,
    Plain(u8),
    /// A byte inside quotes or behind a backslash.
    Quoted(u8),
}

pub fn blank(byte: u8) -> bool
    ensures { result ≡ is_blank byte }
{
    byte == b' ' || byte == b'\t' || byte == b'\r'
}

#[tactic(auto, unfolding(crate::specs::Signs::sign_of))]
fn read_sign(quote: u8, byte: u8) -> Sign
    ensures { result ≡ sign_of quote byte }
{
    if quote != 0 {
        if byte == quote {
            Sign::Mark
        } else {
            Sign::Quoted(byte)
        }
    } else {
        match byte {
            b'"' | b'\'' => Sign::Mark,
            b' ' | b'\t' | b'\r' => Sign::Blank,
            _ => Sign::Plain(byte),
        }
    }
}

#[tactic(auto, unfolding(crate::specs::Signs::quote_behind))]
fn quote_after(quote: u8, byte: u8) -> u8
    ensures { result ≡ quote_behind quote byte }
{
    if quote != 0 {
        if byte == quote { 0 } else { quote }
    } else if byte == b'"' || byte == b'\'' {
        byte
    } else {
        0
    }
}

fn backslash(names: bool) -> Sign
    ensures { result ≡ escape names }
{
    if names {
        Sign::Quoted(b'\\')
    } else {
        Sign::Mark
    }
}

// Adds the signs of a line, of names or not, where there are none so far; the answer is the quote that is left open, or
// 0. The list is the caller's, so that no way out of the loop has to let it go.
fn add_signs(into: &mut Listed<Sign>, line: &[u8], names: bool) -> Result<u8, Memory>
    requires { into.old ≡ [] }
    ensures signs { OnOk result (into.new ≡ signs names 0 line.now) }
    ensures size { OnOk result (length into.new ≡ length line.now) }
    ensures quote { IfOk result (λ quote. quote ≡ left_open 0 line.now) }
{
    let mut quote = 0;
    let mut i = 0;
    while i < line.len() {
        let byte = line[i];
        if byte == b'\\' && i + 1 < line.len() {
            into.push(backslash(names))?;
            into.push(Sign::Quoted(line[i + 1]))?;
            i += 2;
        } else {
            into.push(read_sign(quote, byte))?;
            quote = quote_after(quote, byte);
            i += 1;
        }
    }
    Ok(quote)
}

/// The signs of a line, of names or not; none where a quote doesn't close on it.
pub fn signs_of(alloc: Global, line: &[u8], names: bool) -> Result<Option<Listed<Sign>>, Memory>
    ensures signs { IfOk result (λ found. found ≡ line_signs names line.now) }
    ensures size { IfOk result (λ found. HasLength (length line.now) found) }
{
    let mut signs = Listed::from_vec(Vec::with_capacity(alloc, line.len())?);
    let quote = add_signs(&mut signs, line, names)?;
    if quote != 0 {
        return Ok(None);
    }
    Ok(Some(signs))
}
