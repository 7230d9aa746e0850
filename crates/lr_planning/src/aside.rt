// A log that is set aside, or was by a run that broke off.
ghost use Rattle.std.specs.Prelude.{◌≡◌, ◌≤◌, ◌∷◌, [], length, if◌then◌else◌, IfOk};
ghost use Rattle.lr_rules.specs.declared.fault.Fault.TheVariants as fault;
ghost use Rattle.lr_rules.specs.Names.{aside_path};
ghost use Rattle.lr_plan.specs.Planned.{is_seen_file, takes_up, first_path, aside_by, aside_hinders};

use lr_host::{Kind, Seen};
use lr_plan::LogLook;
use lr_rules::{Memory, Path, Rule, Way, aside_path};
use std::alloc::Global;

/// Whether a file was seen.
pub fn is_file(seen: &Option<Seen>) -> bool
    ensures { result ≡ is_seen_file seen.now }
{
    match seen {
        Some(seen) => matches!(seen.kind, Kind::File),
        None => false,
    }
}

/// Whether the log is taken up from where it was set aside.
pub fn takes_up(rule: &Rule, look: &LogLook) -> bool
    ensures { result ≡ takes_up rule.now.way look.now.tmp }
{
    match rule.way {
        Way::RenameCopy => is_file(&look.tmp),
        _ => false,
    }
}

/// Where the file stands that is turned.
pub fn first_path(alloc: Global, rule: &Rule, look: &LogLook) -> Result<Path, Memory>
    requires { length look.now.path ≤ 2048 }
    ensures { IfOk result (λ path. path ≡ first_path rule.now.way look.now.path look.now.tmp) }
{
    if takes_up(rule, look) {
        aside_path(alloc, &look.path)
    } else {
        Ok(look.path.copy(alloc)?)
    }
}

/// The path to which the log is set aside, where it is.
pub fn aside_of(alloc: Global, rule: &Rule, look: &LogLook) -> Result<Option<Path>, Memory>
    requires { length look.now.path ≤ 2048 }
    ensures { IfOk result (λ path. path ≡ aside_by rule.now.way look.now.path look.now.tmp) }
{
    match rule.way {
        Way::RenameCopy => {
            if is_file(&look.tmp) {
                return Ok(None);
            }
            Ok(Some(aside_path(alloc, &look.path)?))
        }
        _ => Ok(None),
    }
}

/// Whether another thing than a file stands where the log is set aside to.
pub fn aside_hinders(rule: &Rule, look: &LogLook) -> bool
    ensures { aside_hinders rule.now.way look.now.path look.now.tmp ≡ (if result then fault.NotFile (aside_path look.now.path) ∷ []
        else []) }
{
    match rule.way {
        Way::RenameCopy => look.tmp.is_some() && !is_file(&look.tmp),
        _ => false,
    }
}
