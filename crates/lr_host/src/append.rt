// Bytes that are appended in pieces.
ghost use Rattle.std.specs.Prelude.{[], OnOk, OnErr};
ghost use Rattle.lr_host.specs.declared.entry.Entry.TheVariants as entry;
ghost use Rattle.lr_host.specs.Told.{Left, Can, Onward, Rose};
ghost use Rattle.lr_host.specs.Appending.{Appended, AppendBroke};

use crate::{CallFault, Host};
use lr_rules::Path;

/// Puts all of these bytes behind those of the file, each append behind what the one before it took. An append that fails
/// leaves the rest undone. It takes no memory.
pub fn append_all<H: Host>(host: &mut H, path: &Path, bytes: &[u8]) -> Result<(), CallFault>
    requires { Can (H.told host.old) (entry.Appends path.now []) }
    ensures told { OnOk result (Left (Appended path.now bytes.now) (H.told host.old) (H.told host.new)) }
    ensures broke { OnErr result (Left (AppendBroke path.now bytes.now) (H.told host.old) (H.told host.new)) }
    ensures cause { OnErr result (Rose (H.counts host.old).faults (H.counts host.new).faults) }
    ensures counts { Onward (H.counts host.old) (H.counts host.new) }
{
    let mut at = 0;
    while at < bytes.len() {
        let Ok(count) = host.append(path, &bytes[at..]) else {
            return Err(CallFault::Failed);
        };
        at += count;
    }
    Ok(())
}
