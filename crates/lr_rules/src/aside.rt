// The path where a log waits that is set aside.
ghost use Rattle.std.specs.Prelude.{◌≡◌, ◌≤◌, length, IfOk};
ghost use Rattle.lr_rules.specs.Names.{aside_path};

use crate::memory::Memory;
use crate::path::Path;
use std::alloc::Global;

/// The path where the log waits that is set aside: the same with `.tmp` behind it.
pub fn aside_path(alloc: Global, log: &Path) -> Result<Path, Memory>
    requires { length log.now ≤ 2048 }
    ensures { IfOk result (λ path. path ≡ aside_path log.now) }
{
    log.with_end(alloc, b".tmp")
}
