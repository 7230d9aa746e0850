// The end of a stream.
ghost use Rattle.std.specs.Prelude.{◌≡◌, ◌≤◌, []};
ghost use Rattle.lr_lex.specs.Holding.{IsHeld, Drops, StreamEnds, rest_of, size_of};

use crate::held::Held;
use crate::item::{Item, LexFault, LexKind};
use crate::moving::{move_fault, move_item};
use crate::taking::first_of;

// Lets all bytes go that were looked at.
fn drop_all(held: &mut Held)
    ensures { Drops held.old held.new }
{
    held.bytes.clear();
    held.begun = 0;
    held.lines = 0;
}

/// What the bytes that are left tell, where none follow: one item or fault, or none.
pub fn finish(held: &mut Held) -> Result<Option<Item>, LexFault>
    requires held { IsHeld held.old }
    requires over { rest_of held.old ≡ [] }
    ensures held { IsHeld held.new }
    ensures ends { StreamEnds held.old held.new result }
    ensures few { size_of held.new ≤ size_of held.old }
{
    let down = held.down as u32;
    let at = held.at;
    match first_of(held.alloc, &held.bytes) {
        Ok(None) => {
            drop_all(held);
            Ok(None)
        }
        Ok(Some(item)) => {
            drop_all(held);
            Ok(Some(move_item(item, down, at)))
        }
        Err(fault) => match fault.kind {
            LexKind::Memory => Err(fault),
            LexKind::NoEndscript | LexKind::LineTooLong | LexKind::NotUtf8 | LexKind::OpenQuote => {
                drop_all(held);
                Err(move_fault(fault, down))
            }
        },
    }
}
