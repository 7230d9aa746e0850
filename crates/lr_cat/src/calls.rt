// Whether a call failed.
ghost use Rattle.std.specs.Prelude.{◌≡◌, ◌↔◌, true, if◌then◌else◌};
ghost use Rattle.lr_host.specs.Counted.{call_in, calls_in};

use lr_rules::Fault;

fn is_call(fault: &Fault) -> bool
    ensures { call_in fault.now ≡ (if result then 1 else 0) }
{
    match fault {
        Fault::Call(_, _) => true,
        _ => false,
    }
}

/// Whether no fault tells of a call that failed.
#[tactic(auto, using(crate::proofs::FailedCalls::so_far, crate::proofs::FailedCalls::has_call, crate::proofs::FailedCalls::at_end))]
pub fn no_call_failed(faults: &[Fault]) -> bool
    ensures { (result ≡ true) ↔ (calls_in faults.now ≡ 0) }
{
    for fault in faults {
        if is_call(fault) {
            return false;
        }
    }
    true
}
