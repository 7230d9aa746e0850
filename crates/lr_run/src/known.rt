// What is known of the state.
ghost use Rattle.std.specs.Prelude.{◌≡◌, Ok, Err};
ghost use Rattle.lr_rules.specs.declared.fault.CallKind.{CallKind};
ghost use Rattle.lr_rules.specs.declared.fault.Fault.{Fault};
ghost use Rattle.lr_rules.specs.declared.fault.Fault.TheVariants as fault;
ghost use Rattle.lr_rules.specs.declared.path.Path.{Path};
ghost use Rattle.lr_rules.specs.StatePath.{state_part};
ghost use Rattle.lr_host.specs.Told.{Left, Onward, Rose};
ghost use Rattle.lr_state.specs.Known.{ReadsState, IsStateFault};

use lr_host::Host;
use lr_rules::{Fault, Memory, Path};
use lr_state::{Remembered, read_state};
use std::alloc::Global;

/// Looks at the state's file and at its part file, and reads the text, in pieces of at most 65,536 bytes: what is known by
/// them, or the fault that ends the run.
pub fn known_state<H: Host>(
    alloc: Global,
    host: &mut H,
    state: &Path,
    part: &Path,
) -> Result<Result<Remembered, Fault>, Memory>
    requires { part.now ≡ state_part state.now }
    ensures told { Left (ReadsState state.now 65_536 result) (H.told host.old) (H.told host.new) }
    ensures counted { (kind : CallKind) (path : Path) → result ≡ Ok (Err (fault.Call kind path))
        → Rose (H.counts host.old).faults (H.counts host.new).faults }
    ensures only { (f : Fault) → result ≡ Ok (Err f) → IsStateFault state.now f }
    ensures counts { Onward (H.counts host.old) (H.counts host.new) }
{
    let mut buffer = vec![in alloc; 0u8; 65_536]?;
    read_state(alloc, host, state, part, &mut buffer)
}
