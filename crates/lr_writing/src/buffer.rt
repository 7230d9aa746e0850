// The buffer through which a text passes.
ghost use Rattle.std.specs.Prelude.{◌≡◌, ◌<◌, ◌≤◌, ◌+◌, ◌++◌, ◌∷◌, [], length, take, Some, slice_get};
ghost use Rattle.lr_state.specs.Grammar.{top_2};
ghost use Rattle.lr_state.specs.Table.{StateEntry};
ghost use Rattle.lr_state.specs.Written.{entry_line};

use lr_state::{State, first_line};

/// Puts the first line of a state text at the front of the buffer, and gives its length in bytes.
pub fn put_first(buffer: &mut [u8]) -> usize
    requires { 29 ≤ length buffer.old }
    ensures first { take result buffer.new ≡ top_2 ++ 10 ∷ [] }
    ensures same { length buffer.new ≡ length buffer.old }
    ensures bound { result ≤ 29 }
{
    buffer[..29].copy_from_slice(first_line());
    29
}

/// Puts the line of the k-th entry behind the first bytes of the buffer, which hold others; the answer is how many are
/// held then.
pub fn add_line(table: &State, k: usize, buffer: &mut [u8], held: usize) -> usize
    requires in_range { k < length table.now }
    requires room { held + 8448 ≤ length buffer.old }
    ensures line { (e : StateEntry) → slice_get table.now k ≡ Some e
        → take result buffer.new ≡ take held buffer.old ++ entry_line e }
    ensures same { length buffer.new ≡ length buffer.old }
    ensures bound { result ≤ length buffer.old }
{
    let count = table.line(k, &mut buffer[held..]);
    held + count
}
