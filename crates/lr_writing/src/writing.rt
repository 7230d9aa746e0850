// What the writing of a state file needs.
ghost use Rattle.std.specs.Prelude.{◌≡◌, IfOk};
ghost use Rattle.lr_rules.specs.StatePath.{state_part};

use lr_rules::{Memory, Path};
use std::alloc::Global;
use std::marker::Model;

/// All that the writing of a state file needs: its paths, and a buffer of 65,536 bytes. Contracts see the path of the
/// state, and whether an old part file was seen.
#[derive(Drop)]
pub struct Writing {
    pub(crate) part: Path,
    pub(crate) state: Path,
    pub(crate) dir: Path,
    pub(crate) stale: bool,
    pub(crate) buffer: Vec<u8>,
}

impl Model for Writing {
    ghost use Rattle.std.specs.Prelude.{◌≡◌, length};
    ghost use Rattle.lr_rules.specs.Path.{parent_of};
    ghost use Rattle.lr_rules.specs.StatePath.{state_part};
    ghost use Rattle.lr_writing.specs.Target.{StateTarget};

    ghost Value = { StateTarget };

    ghost view = { λ w. record { state = w.state; stale = w.stale } };

    ghost invariant = { λ w. (w.part ≡ state_part w.state) × (w.dir ≡ parent_of w.state) × (length w.buffer.items ≡ 65_536) };
}

/// Takes all the memory that the writing needs. `part` is the path that `part_path` of `lr_state` gave; `stale` tells
/// whether a file was seen there.
pub fn prepare(alloc: Global, state: &Path, part: Path, stale: bool) -> Result<Writing, Memory>
    requires part { part ≡ state_part state.now }
    ensures { IfOk result (λ writing. writing ≡ record { state = state.now; stale = stale }) }
{
    let dir = state.parent(alloc)?;
    let state = state.copy(alloc)?;
    let buffer = vec![in alloc; 0u8; 65_536]?;
    Ok(Writing {
        part,
        state,
        dir,
        stale,
        buffer,
    })
}
