// The files, names and holds of a world, in memory.
ghost use Rattle.std.specs.Prelude.{◌≡◌};
ghost use Rattle.lr_disk.specs.Names.{named_in};
ghost use Rattle.lr_disk.specs.State.{file_named};

use crate::file::MemFile;
use crate::names::thing_at;
use crate::tree::Tree;
use lr_host::Thing;
use lr_rules::Path;

#[derive(Drop)]
pub struct State {
    pub tree: Tree,
    /// By identity.
    pub files: Vec<MemFile>,
    pub holds: Vec<(u32, Option<u64>)>,
    /// The moment of the last run, in seconds since 1970.
    pub moment: i64,
}

/// The file that the path names.
pub fn file_at_path(state: &State, path: &Path) -> Option<u64>
    ensures { result ≡ file_named (named_in state.now.tree.names.items path.now) }
{
    match thing_at(&state.tree.names, path.bytes()) {
        Thing::File(identity) => Some(identity),
        _ => None,
    }
}
