// The paths that a run reserves.
ghost use Rattle.std.specs.Prelude.{◌≡◌, ◌∷◌, ◌++◌, [], IfOk, OnOk};
ghost use Rattle.lr_looks.specs.Reserved.{reserved_by};

use lr_rules::{Memory, Path};
use std::alloc::{AllocError, Global};

fn bytes_behind(alloc: Global, path: &Path, end: &[u8]) -> Result<Vec<u8>, AllocError>
    ensures { IfOk result (λ bytes. bytes.items ≡ path.now ++ end.now) }
{
    let mut bytes = path.bytes().to_vec(alloc)?;
    bytes.extend_from_slice(end)?;
    Ok(bytes)
}

// The path with these bytes behind it.
fn path_behind(alloc: Global, path: &Path, end: &[u8]) -> Result<Path, Memory>
    ensures { IfOk result (λ behind. behind ≡ path.now ++ end.now) }
{
    let bytes = bytes_behind(alloc, path, end)?;
    match Path::new(alloc, &bytes) {
        Ok(behind) => Ok(behind),
        // A state's path is short enough for what stands behind it, so this is want of memory.
        Err(_) => Err(Memory),
    }
}

fn add_behind(
    alloc: Global,
    state: &Path,
    end: &[u8],
    reserved: &mut Vec<Path>,
) -> Result<(), Memory>
    ensures { OnOk result (reserved.new.items ≡ reserved.old.items ++ (state.now ++ end.now) ∷ []) }
{
    reserved.push(path_behind(alloc, state, end)?)?;
    Ok(())
}

/// The paths that a run reserves for itself: its state's, that of the part file, and the lock's.
pub fn reserved_paths(alloc: Global, state: &Path) -> Result<Vec<Path>, Memory>
    ensures { IfOk result (λ reserved. reserved.items ≡ reserved_by state.now) }
{
    let mut reserved = Vec::new(alloc);
    add_behind(alloc, state, b"", &mut reserved)?;
    add_behind(alloc, state, b".tmp", &mut reserved)?;
    add_behind(alloc, state, b".lock", &mut reserved)?;
    Ok(reserved)
}
