// The look at the path where a log waits that is set aside.
ghost use Rattle.std.specs.Prelude.{◌≡◌, ◌≤◌, [], ◌∷◌, IfOk, IfErr, OnErr, length};
ghost use Rattle.lr_rules.specs.declared.fault.CallKind.TheVariants as call;
ghost use Rattle.lr_host.specs.declared.entry.Entry.TheVariants as entry;
ghost use Rattle.lr_host.specs.Told.{Left, Are, Onward, Rose};
ghost use Rattle.lr_family.specs.Stands.{IsFailedStand};
ghost use Rattle.lr_family.specs.declared.stand.StandStop.TheVariants as stop;
ghost use Rattle.lr_looks.specs.Families.{ShowsAside, ShowsNoAside};

use lr_family::{Family, StandStop};
use lr_host::{CallFault, Host, Seen};
use lr_rules::{CallKind, Path, aside_path};
use std::alloc::Global;

// What stands at the path.
fn look_at<H: Host>(host: &mut H, path: Path) -> Result<Option<Seen>, StandStop>
    ensures told { IfOk result (λ seen. Left (Are (entry.Look path seen ∷ [])) (H.told host.old) (H.told host.new)) }
    ensures stopped { OnErr result (Left (Are []) (H.told host.old) (H.told host.new)) }
    ensures why { IfErr result (λ why. why ≡ stop.Call call.Look path) }
    ensures cause { IfErr result (λ why. IsFailedStand why → Rose (H.counts host.old).faults (H.counts host.new).faults) }
    ensures counts { Onward (H.counts host.old) (H.counts host.new) }
{
    match host.look(&path, false) {
        Ok(seen) => Ok(seen),
        Err(CallFault::Failed) => Err(StandStop::Call(CallKind::Look, path)),
    }
}

/// What stands where the log waits that is set aside. Of a log of another way nothing is looked at.
pub fn look_aside<H: Host>(
    alloc: Global,
    host: &mut H,
    family: &Family,
) -> Result<Option<Seen>, StandStop>
    requires { length family.now.log ≤ 2048 }
    ensures told { IfOk result (λ tmp. Left (ShowsAside family.now.naming.aside family.now.log tmp) (H.told host.old)
        (H.told host.new)) }
    ensures stopped { IfErr result (λ why. Left (ShowsNoAside family.now.naming.aside family.now.log why) (H.told host.old)
        (H.told host.new)) }
    ensures cause { IfErr result (λ why. IsFailedStand why → Rose (H.counts host.old).faults (H.counts host.new).faults) }
    ensures counts { Onward (H.counts host.old) (H.counts host.new) }
{
    let aside = family.naming().aside;
    if !aside {
        return Ok(None);
    }
    match aside_path(alloc, family.log()) {
        Ok(path) => look_at(host, path),
        Err(_) => Err(StandStop::Memory),
    }
}
