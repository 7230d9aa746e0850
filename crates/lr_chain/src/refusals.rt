// Why a rotation isn't made ready, with the path that is told; want of memory for it comes in its place.
ghost use Rattle.std.specs.Prelude.{[], ◌∷◌};
ghost use Rattle.lr_rules.specs.declared.fault.Fault.TheVariants as fault;
ghost use Rattle.lr_chain.specs.Hindrances.{IsHindered};

use crate::ready::PrepareStop;
use lr_rules::Path;
use std::alloc::Global;

/// The directory with this path isn't there.
pub fn no_dir(alloc: Global, path: &Path) -> PrepareStop
    ensures { IsHindered (fault.NoDir path.now ∷ []) result }
{
    match path.copy(alloc) {
        Ok(path) => PrepareStop::NoDir(path),
        Err(_) => PrepareStop::Memory,
    }
}

/// The number of the member with this path can't become higher.
pub fn too_high(alloc: Global, path: &Path) -> PrepareStop
    ensures { IsHindered (fault.TooHigh path.now ∷ []) result }
{
    match path.copy(alloc) {
        Ok(path) => PrepareStop::TooHigh(path),
        Err(_) => PrepareStop::Memory,
    }
}

/// The name is that of the member with this path.
pub fn taken(alloc: Global, path: &Path) -> PrepareStop
    ensures { IsHindered (fault.Taken path.now ∷ []) result }
{
    match path.copy(alloc) {
        Ok(path) => PrepareStop::Taken(path),
        Err(_) => PrepareStop::Memory,
    }
}
