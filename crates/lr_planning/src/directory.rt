// The directory that a rotation makes, where that of the log's family is missing.
ghost use Rattle.std.specs.Prelude.{◌≡◌, IfOk};
ghost use Rattle.lr_plan.specs.Planned.{dir_is_log, makes_dir, dir_of, empty_stand};

use lr_family::Stand;
use lr_plan::LogLook;
use lr_rules::{Listed, Make, Memory, Naming, Path, Rule, is_aside_path};
use std::alloc::Global;

// Whether the family's directory has the log's path, or that where the log waits that is set aside.
fn dir_is_log(naming: &Naming, log: &Path) -> bool
    ensures { result ≡ dir_is_log naming.now log.now }
{
    naming.dir.is(log) || naming.aside && is_aside_path(&naming.dir, log)
}

/// Whether the rotation of the log makes its family's directory: its rule says so, and nothing was there, in a directory
/// that was; and the log's own file has that path at no moment.
pub fn makes_dir(rule: &Rule, look: &LogLook) -> bool
    ensures { result ≡ makes_dir rule.now look.now }
{
    let stand = &look.stand;
    match rule.createolddir {
        Make::No => false,
        Make::Yes(_) => {
            !stand.there && stand.parent && !dir_is_log(look.family.naming(), &look.path)
        }
    }
}

/// The directory that the rotation of the log makes, if any, and with which mode.
pub fn made_dir(
    alloc: Global,
    rule: &Rule,
    look: &LogLook,
) -> Result<Option<(Path, Option<u32>)>, Memory>
    ensures { IfOk result (λ dir. dir ≡ dir_of rule.now look.now) }
{
    if !makes_dir(rule, look) {
        return Ok(None);
    }
    let path = look.family.naming().dir.copy(alloc)?;
    match rule.createolddir {
        Make::No => Ok(Some((path, None))),
        Make::Yes(mode) => Ok(Some((path, mode))),
    }
}

/// What stands of a family whose directory was just made. It takes no memory.
pub fn empty_stand(alloc: Global) -> Stand
    ensures { result ≡ empty_stand }
{
    Stand {
        there: true,
        parent: true,
        members: Listed::new(alloc),
        parts: Listed::new(alloc),
    }
}
