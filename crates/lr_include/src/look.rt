// One look at a path.
ghost use Rattle.std.specs.Prelude.{◌≡◌, [], IfOk, IfErr, Ok};
ghost use Rattle.lr_host.specs.declared.entry.Entry.TheVariants as entry;
ghost use Rattle.lr_host.specs.Told.{Left, Are, Can, Onward, Rose};
ghost use Rattle.lr_include.specs.Visits.{SeesAs};
ghost use Rattle.lr_include.specs.declared.look.Sight.TheVariants as sight;

use lr_host::{CallFault, Host, Kind};
use lr_rules::Path;

/// What stands at a path.
#[derive(Clone, Copy)]
pub enum Sight {
    /// Nothing, or neither a file nor a directory.
    Nothing,
    File,
    /// A file that others may write.
    Exposed,
    Dir,
}

/// What stands at the path. Links are followed.
pub fn look_at<H: Host>(host: &mut H, path: &Path) -> Result<Sight, CallFault>
    ensures told { IfOk result (λ sight. Left (SeesAs path.now sight) (H.told host.old) (H.told host.new)) }
    ensures stopped { IfErr result (λ fault. Left (Are []) (H.told host.old) (H.told host.new)) }
    ensures reads { result ≡ Ok sight.File → Can (H.told host.new) (entry.Reads path.now 0 []) }
    ensures lists { result ≡ Ok sight.Dir → Can (H.told host.new) (entry.List path.now []) }
    ensures cause { IfErr result (λ fault. Rose (H.counts host.old).faults (H.counts host.new).faults) }
    ensures counts { Onward (H.counts host.old) (H.counts host.new) }
{
    let Ok(look) = host.look(path, true) else {
        return Err(CallFault::Failed);
    };
    let Some(seen) = look else {
        return Ok(Sight::Nothing);
    };
    match seen.kind {
        Kind::File => {
            if seen.exposed {
                Ok(Sight::Exposed)
            } else {
                Ok(Sight::File)
            }
        }
        Kind::Dir => Ok(Sight::Dir),
        Kind::Other => Ok(Sight::Nothing),
    }
}
