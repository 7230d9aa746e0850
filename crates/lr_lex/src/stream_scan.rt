// The items of a stream, as far as its bytes go.
ghost use Rattle.std.specs.Prelude.{◌≡◌, ◌≤◌, [], None, IfOk, length};
ghost use Rattle.lr_lex.specs.Holding.{IsHeld, BeginsLine, StreamBrings, StreamFills, rest_of, size_of};

use crate::held::Held;
use crate::item::{Item, LexFault};
use crate::taking::{fill, no_memory, step};

// Takes in the bytes before the next newline, or all; whether there is one.
fn more(held: &mut Held) -> Result<bool, LexFault>
    requires { IsHeld held.old }
    ensures held { IsHeld held.new }
    ensures filled { StreamFills held.old held.new result }
    ensures found { IfOk result (λ found. BeginsLine found (rest_of held.new)) }
    ensures ahead { length (rest_of held.new) ≤ length (rest_of held.old) }
    ensures few { size_of held.new ≤ size_of held.old }
{
    match fill(held) {
        Ok(found) => Ok(found),
        Err(_) => Err(no_memory(held)),
    }
}

/// The next item or fault of the whole lines; none where no line is whole.
pub fn scan(held: &mut Held) -> Result<Option<Item>, LexFault>
    requires { IsHeld held.old }
    ensures held { IsHeld held.new }
    ensures brings { StreamBrings held.old held.new result }
    ensures over { IfOk result (λ found. found ≡ None → rest_of held.new ≡ []) }
    ensures few { size_of held.new ≤ size_of held.old }
{
    while more(held)? {
        if let Some(item) = step(held)? {
            return Ok(Some(item));
        }
    }
    Ok(None)
}
