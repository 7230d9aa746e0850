// The removals of one rotation.
ghost use Rattle.std.specs.Prelude.{OnOk, IfErr};
ghost use Rattle.lr_host.specs.Told.{Left, Are, Onward};
ghost use Rattle.lr_host.specs.Steps.{CanAll};
ghost use Rattle.lr_chain.specs.Ready.{removals_of};
ghost use Rattle.lr_chain.specs.Stops.{RetireStopped, RetireCause};

use lr_host::Host;
use lr_scripts::{Bad, Removal, remove};
use std::alloc::Global;

/// Removes the files, in order. Where one removal is refused, those behind it are left undone; the number is that of the
/// refused one, counted from 0. Memory is taken to run programs alone.
pub fn retire<H: Host>(alloc: Global, host: &mut H, list: &[Removal]) -> Result<(), (usize, Bad)>
    requires { CanAll (H.told host.old) (removals_of list.now) }
    ensures told { OnOk result (Left (Are (removals_of list.now)) (H.told host.old) (H.told host.new)) }
    ensures refused { IfErr result (λ stop. Left (RetireStopped list.now stop.0 stop.1) (H.told host.old) (H.told host.new)) }
    ensures cause { IfErr result (λ stop. RetireCause list.now stop.0 stop.1 (H.counts host.old) (H.counts host.new)) }
    ensures counts { Onward (H.counts host.old) (H.counts host.new) }
{
    for at in 0..list.len() {
        if let Err(why) = remove(alloc, host, &list[at]) {
            return Err((at, why));
        }
    }
    Ok(())
}
