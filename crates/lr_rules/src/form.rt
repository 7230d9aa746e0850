// Whether bytes are a path.
ghost use Rattle.std.specs.Prelude.{◌≡◌, None, length, IsUtf8};
ghost use Rattle.std.specs.List.{list_any, slice_split};
ghost use Rattle.lr_rules.specs.Path.{path_fault, is_slash, is_empty, is_dots, is_absolute, has_bad_byte, has_empty_part};
ghost use Rattle.lr_rules.specs.Path.{has_dot_part, joined};

use crate::PathFault;
use crate::text::is_utf8;

/// Whether a newline or a zero byte is among the bytes.
pub fn has_bad_byte(bytes: &[u8]) -> bool
    ensures { result ≡ has_bad_byte bytes.now }
{
    bytes.iter().any(|b| *b == b'\n' || *b == 0)
}

fn any_empty(rest: &[u8]) -> bool
    ensures { result ≡ list_any is_empty (slice_split is_slash rest.now) }
{
    rest.split(|b| *b == b'/').any(|part| part.is_empty())
}

fn any_dots(rest: &[u8]) -> bool
    ensures { result ≡ list_any is_dots (slice_split is_slash rest.now) }
{
    rest.split(|b| *b == b'/').any(are_dots)
}

fn are_dots(part: &[u8]) -> bool
    ensures { result ≡ is_dots part.now }
{
    match part {
        [one] => *one == b'.',
        [one, two] => *one == b'.' && *two == b'.',
        _ => false,
    }
}

fn empty_part(bytes: &[u8]) -> bool
    ensures { result ≡ has_empty_part bytes.now }
{
    match bytes {
        [] | [_] => false,
        [_, rest @ ..] => any_empty(rest),
    }
}

fn dot_part(bytes: &[u8]) -> bool
    ensures { result ≡ has_dot_part bytes.now }
{
    match bytes {
        [] => false,
        [_, rest @ ..] => any_dots(rest),
    }
}

/// Whether the first byte is a slash.
pub fn is_absolute(bytes: &[u8]) -> bool
    ensures { result ≡ is_absolute bytes.now }
{
    match bytes {
        [] => false,
        [first, ..] => *first == b'/',
    }
}

// The first thing that keeps bytes from being a path.
#[tactic(auto, unfolding(crate::specs::Path::path_fault))]
pub fn fault_of(bytes: &[u8]) -> Option<PathFault>
    ensures { result ≡ path_fault bytes.now }
{
    if !is_utf8(bytes) {
        Some(PathFault::NotUtf8)
    } else if has_bad_byte(bytes) {
        Some(PathFault::BadByte)
    } else if bytes.len() > 4096 {
        Some(PathFault::TooLong)
    } else if !is_absolute(bytes) {
        Some(PathFault::Relative)
    } else if empty_part(bytes) {
        Some(PathFault::EmptyPart)
    } else if dot_part(bytes) {
        Some(PathFault::DotPart)
    } else {
        None
    }
}

// Whether a part of the path of a name in a directory is empty, where none of the directory is.
fn joined_empty(dir: &[u8], last: &[u8]) -> bool
    requires { path_fault dir.now ≡ None }
    ensures { result ≡ has_empty_part (joined dir.now last.now) }
{
    if last.is_empty() {
        return dir.len() != 1;
    }
    any_empty(last)
}

// How long the path of a name in a directory is.
fn joined_len(dir: &[u8], last: &[u8]) -> usize
    ensures { result ≡ length (joined dir.now last.now) }
{
    if dir.len() == 1 {
        1 + last.len()
    } else {
        dir.len() + 1 + last.len()
    }
}

// The first thing that keeps the path of a text in a directory from being one: the text or its length, as the directory is a path.
pub fn joined_fault(dir: &[u8], last: &[u8]) -> Option<PathFault>
    requires path { path_fault dir.now ≡ None }
    requires text { IsUtf8 last.now }
    ensures { result ≡ path_fault (joined dir.now last.now) }
{
    if has_bad_byte(last) {
        Some(PathFault::BadByte)
    } else if joined_len(dir, last) > 4096 {
        Some(PathFault::TooLong)
    } else if joined_empty(dir, last) {
        Some(PathFault::EmptyPart)
    } else if any_dots(last) {
        Some(PathFault::DotPart)
    } else {
        None
    }
}
