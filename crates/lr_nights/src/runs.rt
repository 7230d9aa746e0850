// How many runs began.
ghost use Rattle.std.specs.Prelude.{◌≡◌, ◌+◌, cond, IfOk, IfSome};
ghost use Rattle.lr_host.specs.declared.journal.Opening.{Opening};
ghost use Rattle.lr_host.specs.World.{Opens, then};
ghost use Rattle.lr_nights.specs.Summary.{starts_in};
ghost use Rattle.lr_nights.specs.Counting.{is_start};

use crate::rotations::starts;
use lr_host::Entry;
use lr_rules::Memory;

// One more where a run begins; None where that is too many.
fn counted(runs: u32, entry: &Entry) -> Option<u32>
    ensures { IfSome result (λ more. more ≡ runs + cond (is_start entry.now) 1 0) }
{
    if starts(entry) {
        return runs.checked_add(1);
    }
    Some(runs)
}

/// How many runs began.
pub fn runs_of(entries: &[Entry]) -> Result<u32, Memory>
    ensures { IfOk result (λ runs. (o : Opening) → runs ≡ starts_in (then (Opens o) entries.now)) }
{
    let mut runs: u32 = 0;
    for entry in entries {
        let Some(more) = counted(runs, entry) else {
            return Err(Memory);
        };
        runs = more;
    }
    Ok(runs)
}
