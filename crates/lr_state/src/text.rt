// State texts: reading, and what is written before the lines.
ghost use Rattle.std.specs.Prelude.{◌≡◌, ◌<◌, ◌≤◌, ◌++◌, ◌∷◌, [], Ok, length, IfSome, option_map};
ghost use Rattle.std.specs.List.{position_or_len, slice_split};
ghost use Rattle.lr_rules.specs.Bytes.{is_newline};
ghost use Rattle.lr_state.specs.Answer.{ReaderGives, IsSaidBy};
ghost use Rattle.lr_state.specs.Grammar.{StateSaid, is_top, top_2, lines_behind, LinesSay, TextSays};
ghost use Rattle.lr_state.specs.Reading.{seen};

use crate::line::{LineStop, add_line};
use crate::state::State;
use lr_rules::StateKind;
use std::alloc::Global;

/// Why a state text gives no table. Nothing is left behind.
#[derive(Clone, Copy)]
pub enum StateStop {
    /// The first line with a fault, counted from 1, or 0 for the text as a whole, and its first fault.
    Bad(u32, StateKind),
    /// There is no memory for the table.
    Memory,
}

const TOP: &[u8] = b"logrotate state -- version 2";

const OLD_TOP: &[u8] = b"logrotate state -- version 1";

/// The first line of each text that is written, with its newline.
pub fn first_line() -> &'static [u8]
    ensures { result.now ≡ top_2 ++ 10 ∷ [] }
{
    b"logrotate state -- version 2\n"
}

/// Where the first line ends.
fn line_end(text: &[u8]) -> usize
    ensures bound { result ≤ length text.now }
    ensures end { result ≡ position_or_len is_newline text.now }
{
    text.iter().position(|b| *b == b'\n').unwrap_or(text.len())
}

/// The first line without its newline, and what is behind that.
fn cut_line<'a>(text: &'a [u8]) -> (&'a [u8], Option<&'a [u8]>)
    ensures lines { slice_split is_newline text.now ≡ result.0.now ∷ lines_behind (option_map seen result.1) }
    ensures shorter { IfSome result.1 (λ rest. length rest.now < length text.now) }
{
    let end = line_end(text);
    if end < text.len() {
        (&text[..end], Some(&text[end + 1..]))
    } else {
        (text, None)
    }
}

fn names_version(line: &[u8]) -> bool
    ensures { result ≡ is_top line.now }
{
    line == TOP || line == OLD_TOP
}

/// The table of the lines behind the first.
fn read_lines(alloc: Global, text: Option<&[u8]>) -> Result<State, StateStop>
    requires { IfSome text (λ s. length s.now ≤ 67_108_864) }
    ensures says { IsSaidBy (LinesSay 2 [] (lines_behind (option_map seen text.entry))) result }
    ensures only { (said : StateSaid) → LinesSay 2 [] (lines_behind (option_map seen text.entry)) said → ReaderGives result said }
{
    let mut state = State::new(alloc);
    let mut left = text;
    let mut number = 2u32;
    while let Some(text) = left {
        let (line, rest) = cut_line(text);
        match add_line(alloc, &mut state, line) {
            Ok(()) => {}
            Err(LineStop::Fault(kind)) => return Err(StateStop::Bad(number, kind)),
            Err(LineStop::Memory) => return Err(StateStop::Memory),
        }
        left = rest;
        number += 1;
    }
    Ok(state)
}

impl State {
    /// The table of a state text of at most 67,108,864 bytes. Its first line is `logrotate state -- version 2` or the
    /// same with 1; each further line is empty, or a name between quotes, where a backslash stands for the byte behind
    /// it, or a name that begins with a slash and holds no blank, and behind it blanks, `Y-M-D` or `Y-M-D-h:m:s`, and
    /// maybe blanks. A text without bytes has no entries. A space, a tab and a carriage return are blanks.
    pub fn read(alloc: Global, bytes: &[u8]) -> Result<State, StateStop>
        // What comes is what the text says, its table or its first fault.
        ensures says { IsSaidBy (TextSays bytes.now) result }
        // What the text says comes, unless there is no memory.
        ensures only { (said : StateSaid) → TextSays bytes.now said → ReaderGives result said }
    {
        if bytes.is_empty() {
            return Ok(State::new(alloc));
        }
        if bytes.len() > 67_108_864 {
            return Err(StateStop::Bad(0, StateKind::TooBig));
        }
        let (top, rest) = cut_line(bytes);
        if !names_version(top) {
            return Err(StateStop::Bad(1, StateKind::BadTop));
        }
        read_lines(alloc, rest)
    }
}
