// What stands beside logs, and what the next forced run removes.
ghost use Rattle.std.specs.Prelude.{◌≡◌, true, IfOk, OnErr};
ghost use Rattle.lr_host.specs.Counted.{WentBy};
ghost use Rattle.lr_host.specs.Quiet.{AreQuiet};
ghost use Rattle.lr_host.specs.Told.{Left};
ghost use Rattle.lr_plan.specs.Planned.{CanPlanAll};
ghost use Rattle.lr_audit.specs.Audits.{AddsSaw, Audits};

use crate::dirs::dirs_of;
use crate::files::add_files;
use lr_audited::{Audit, audit_by};
use lr_host::{Host, put_in_order};
use lr_plan::Looks;
use lr_rules::{Clock, Fault, Memory, Path, Rules, Settings};
use std::alloc::Global;

// The regular files beside the logs, in order of bytes.
fn files_of<H: Host>(
    alloc: Global,
    host: &mut H,
    looks: &Looks,
    faults: &mut Vec<Fault>,
) -> Result<Vec<Path>, Memory>
    ensures told { IfOk result (λ files. Left (AddsSaw looks.now files.items faults.old.items faults.new.items) (H.told host.old)
        (H.told host.new)) }
    ensures some { OnErr result (Left AreQuiet (H.told host.old) (H.told host.new)) }
    ensures went { WentBy result faults.old.items faults.new.items (H.counts host.old) (H.counts host.new) }
{
    let dirs = dirs_of(alloc, looks)?;
    let mut files = Vec::new(alloc);
    add_files(alloc, host, &dirs, &mut files, faults)?;
    put_in_order(&mut files);
    Ok(files)
}

/// Tells of each regular file in the directories of the logs that are kept, and of their families, what it is by these looks
/// at them; which places of theirs are free; and what the next run by `--force` removes. The directories are listed, and each
/// name in them is looked at. A failed call takes away just the lines of its directory, or that of its name, and has a fault
/// of its own.
pub fn audit_of<H: Host>(
    alloc: Global,
    host: &mut H,
    rules: &Rules,
    looks: &Looks,
    clock: &Clock,
    settings: &Settings,
    faults: &mut Vec<Fault>,
) -> Result<Audit, Memory>
    requires force { settings.now.force ≡ true }
    requires looks { CanPlanAll rules.now.sets looks.now.sets }
    ensures told { IfOk result (λ audit. Left
        (Audits rules.now.sets looks.now clock.entry.now settings.now.mailer audit faults.old.items faults.new.items)
        (H.told host.old) (H.told host.new)) }
    ensures some { OnErr result (Left AreQuiet (H.told host.old) (H.told host.new)) }
    ensures went { WentBy result faults.old.items faults.new.items (H.counts host.old) (H.counts host.new) }
{
    let files = files_of(alloc, host, looks, faults)?;
    audit_by(alloc, rules, looks, clock, settings, &files)
}
