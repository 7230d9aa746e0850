// The families of logs.
ghost use Rattle.std.specs.Prelude.{◌≡◌, ◌≤◌, None, IfOk, OnOk, length};
ghost use Rattle.lr_rules.specs.Names.{naming_of};
ghost use Rattle.lr_rules.specs.Path.{path_fault, last_of};
ghost use Rattle.lr_looks.specs.Asked.{CanAsk};

use lr_family::Family;
use lr_rules::{Memory, Path, Rule, naming_of};
use std::alloc::Global;

/// The family of a log, as its rule names the members.
pub fn family_of(alloc: Global, log: Path, rule: &Rule) -> Result<Family, Memory>
    requires rule { CanAsk rule.now }
    requires size { length log ≤ 2048 }
    requires last { length (last_of log) ≤ 255 }
    ensures log { IfOk result (λ family. family.log ≡ log) }
    ensures naming { IfOk result (λ family. family.naming ≡ naming_of rule.now log) }
    ensures path { OnOk result (path_fault log ≡ None) }
    ensures dir { OnOk result (path_fault (naming_of rule.now log).dir ≡ None) }
{
    let _bytes = log.bytes();
    let naming = naming_of(alloc, rule, &log)?;
    Ok(Family::of(log, naming))
}
