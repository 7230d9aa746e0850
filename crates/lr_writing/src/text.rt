// The text of a table, appended through a buffer.
ghost use Rattle.std.specs.Prelude.{◌≡◌, ◌≤◌, ◌+◌, [], length, take, OnOk, OnErr, IfOk};
ghost use Rattle.lr_host.specs.declared.entry.Entry.TheVariants as entry;
ghost use Rattle.lr_host.specs.Told.{Left, Can, Onward, Rose};
ghost use Rattle.lr_state.specs.Written.{table_text};
ghost use Rattle.lr_writing.specs.Buffer.{Wrote, WriteBroke, HoldsBack};

use crate::buffer::{add_line, put_first};
use lr_host::{CallFault, Host, append_all};
use lr_rules::Path;
use lr_state::State;

// Appends what the buffer holds where there is no room for one more line, of at most 8,448 bytes; the answer is how much
// it holds then.
fn make_room<H: Host>(
    host: &mut H,
    path: &Path,
    buffer: &[u8],
    held: usize,
) -> Result<usize, CallFault>
    requires file { Can (H.told host.old) (entry.Appends path.now []) }
    requires size { length buffer.now ≡ 65_536 }
    requires bound { held ≤ 65_536 }
    ensures told { IfOk result (λ left. HoldsBack path.now (take held buffer.now) (take left buffer.now) (H.told host.old)
        (H.told host.new)) }
    ensures room { IfOk result (λ left. left + 8448 ≤ 65_536) }
    ensures broke { OnErr result (Left (WriteBroke path.now (take held buffer.now)) (H.told host.old) (H.told host.new)) }
    ensures cause { OnErr result (Rose (H.counts host.old).faults (H.counts host.new).faults) }
    ensures counts { Onward (H.counts host.old) (H.counts host.new) }
{
    if 65_536 - held >= 8448 {
        return Ok(held);
    }
    let full = &buffer[..held];
    append_all(host, path, full)?;
    Ok(0)
}

/// Appends the text of a table, through a buffer of 65,536 bytes.
pub fn append_table<H: Host>(
    host: &mut H,
    path: &Path,
    table: &State,
    buffer: &mut [u8],
) -> Result<(), CallFault>
    requires file { Can (H.told host.old) (entry.Appends path.now []) }
    requires size { length buffer.old ≡ 65_536 }
    ensures told { OnOk result (Left (Wrote path.now (table_text table.now)) (H.told host.old) (H.told host.new)) }
    ensures broke { OnErr result (Left (WriteBroke path.now (table_text table.now)) (H.told host.old) (H.told host.new)) }
    ensures cause { OnErr result (Rose (H.counts host.old).faults (H.counts host.new).faults) }
    ensures counts { Onward (H.counts host.old) (H.counts host.new) }
{
    let mut held = put_first(buffer);
    for k in 0..table.len() {
        let left = make_room(host, path, buffer, held)?;
        held = add_line(table, k, buffer, left);
    }
    append_all(host, path, &buffer[..held])
}
