// The path of the state's part file.
ghost use Rattle.std.specs.Prelude.{◌≡◌, ◌≤◌, length, IfOk, None};
ghost use Rattle.lr_rules.specs.Path.{parent_of, path_fault};
ghost use Rattle.lr_rules.specs.StatePath.{state_part};

use lr_rules::{Memory, Path};
use std::alloc::Global;

/// The path of the file that a new state text is first written to: that of the state with `.tmp` behind it. It stands in the
/// directory of the state.
pub fn part_path(alloc: Global, state: &Path) -> Result<Path, Memory>
    requires { length state.now ≤ 4092 }
    ensures part { IfOk result (λ part. (part ≡ state_part state.now) × (path_fault part ≡ None)) }
    ensures dir { IfOk result (λ part. parent_of part ≡ parent_of state.now) }
{
    state.with_end(alloc, b".tmp")
}
