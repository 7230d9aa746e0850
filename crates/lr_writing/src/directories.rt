// The directories that are synced.
ghost use Rattle.std.specs.Prelude.{◌≡◌, map, IfOk};
ghost use Rattle.lr_rules.specs.Path.{parent_of};
ghost use Rattle.lr_writing.specs.Directories.{AreDirectoriesOf};

use lr_host::{leave_once, put_in_order};
use lr_rules::{Listed, Memory, Path};
use std::alloc::Global;

// The directory of each path, in order of the paths.
fn parents_of(alloc: Global, paths: &[Path]) -> Result<Vec<Path>, Memory>
    ensures { IfOk result (λ dirs. dirs.items ≡ map parent_of paths.now) }
{
    let mut dirs = Vec::new(alloc);
    for path in paths {
        dirs.push(path.parent(alloc)?)?;
    }
    Ok(dirs)
}

/// The directories of these paths, each once, in order of bytes.
pub fn directories_of(alloc: Global, paths: &[Path]) -> Result<Listed<Path>, Memory>
    ensures { IfOk result (λ dirs. AreDirectoriesOf paths.now dirs) }
{
    let mut dirs = parents_of(alloc, paths)?;
    put_in_order(&mut dirs);
    leave_once(&mut dirs);
    Ok(Listed::from_vec(dirs))
}
