// The looks at the logs of which no name is reserved.
ghost use Rattle.std.specs.Prelude.{◌≡◌, OnErr, IfOk, length};
ghost use Rattle.lr_host.specs.Told.{Left};
ghost use Rattle.lr_looks.specs.Asked.{CanAskAll};
ghost use Rattle.lr_host.specs.Counted.{WentBy};
ghost use Rattle.lr_looks.specs.Ready.{AreReady};
ghost use Rattle.lr_looks.specs.Shown.{LooksAtAll, ShowsSomeLooks};

use crate::families::look_at_families;
use crate::keeping::keep;
use crate::words::look_at_words;
use lr_host::Host;
use lr_plan::Looks;
use lr_rules::{Fault, Memory, Path, Rules};
use std::alloc::Global;

/// Looks at what the words of the rules give, and at the families of the logs that are kept: for each definition its logs
/// that were looked at whole. The faults of the others are added: those of the words, of the choice, of the kinds and of the
/// families, in this order. No log is kept of which a name is one of the reserved paths.
pub fn look_at_unreserved<H: Host>(
    alloc: Global,
    host: &mut H,
    rules: &Rules,
    reserved: &[Path],
    faults: &mut Vec<Fault>,
) -> Result<Looks, Memory>
    requires { CanAskAll rules.now.sets }
    ensures told { IfOk result (λ looks. Left (LooksAtAll reserved.now rules.now.sets looks faults.old.items faults.new.items)
        (H.told host.old) (H.told host.new)) }
    ensures some { OnErr result (Left (ShowsSomeLooks reserved.now rules.now.sets) (H.told host.old) (H.told host.new)) }
    ensures many { IfOk result (λ looks. length looks.sets ≡ length rules.now.sets) }
    ensures ready { IfOk result (λ looks. AreReady looks.sets) }
    ensures went { WentBy result faults.old.items faults.new.items (H.counts host.old) (H.counts host.new) }
{
    let found = look_at_words(alloc, host, rules, faults)?;
    let kept = keep(alloc, found, reserved, faults)?;
    look_at_families(alloc, host, kept, rules.sets.len(), faults)
}
