// All looks of a run.
ghost use Rattle.std.specs.Prelude.{IfOk, OnErr};
ghost use Rattle.lr_host.specs.Counted.{WentBy};
ghost use Rattle.lr_host.specs.Told.{Left};
ghost use Rattle.lr_looks.specs.Shown.{LooksAtAll, ShowsSomeLooks};
ghost use Rattle.lr_plan.specs.Planned.{CanPlanAll};
ghost use Rattle.lr_looks.specs.Reserved.{reserved_by};

use crate::reserved::reserved_paths;
use crate::unreserved::look_at_unreserved;
use lr_host::Host;
use lr_plan::Looks;
use lr_rules::{Fault, Memory, Path, Rules};
use std::alloc::Global;

/// Looks at the logs that the rules ask for, and at their families, but for those of which a name is one that a run with
/// this state reserves for itself.
pub fn look_all<H: Host>(
    alloc: Global,
    host: &mut H,
    rules: &Rules,
    state: &Path,
    faults: &mut Vec<Fault>,
) -> Result<Looks, Memory>
    ensures told { IfOk result (λ looks. Left (LooksAtAll (reserved_by state.now) rules.now.sets looks faults.old.items
        faults.new.items) (H.told host.old) (H.told host.new)) }
    ensures some { OnErr result (Left (ShowsSomeLooks (reserved_by state.now) rules.now.sets) (H.told host.old) (H.told host.new)) }
    ensures planned { IfOk result (λ looks. CanPlanAll rules.now.sets looks.sets) }
    ensures went { WentBy result faults.old.items faults.new.items (H.counts host.old) (H.counts host.new) }
{
    let reserved = reserved_paths(alloc, state)?;
    let looks = look_at_unreserved(alloc, host, rules, &reserved, faults)?;
    Ok(looks)
}
