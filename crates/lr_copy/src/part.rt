// The path of a part file.
ghost use Rattle.std.specs.Prelude.{◌≡◌, ◌≤◌, ◌++◌, length, IfOk, None};
ghost use Rattle.lr_rules.specs.Match.{part_end};
ghost use Rattle.lr_rules.specs.Path.{parent_of, path_fault};

use lr_rules::{Memory, Path};
use std::alloc::Global;

/// The path of the part file of a copy that goes to this path: the same with `.logrotate-part` behind it. It stands in the
/// same directory.
pub fn part_path(alloc: Global, target: &Path) -> Result<Path, Memory>
    requires { length target.now ≤ 4081 }
    ensures part { IfOk result (λ part. (part ≡ target.now ++ part_end) × (path_fault part ≡ None)) }
    ensures dir { IfOk result (λ part. parent_of part ≡ parent_of target.now) }
{
    target.with_end(alloc, b".logrotate-part")
}
