// The logs of a trial and the names of their members.
ghost use Rattle.std.specs.Prelude.{◌≡◌, All, None, IfOk};
ghost use Rattle.lr_nights.specs.Opening.{log_path, log_naming, named_logs_from};
ghost use Rattle.lr_nights.specs.Summary.{logs_of};

use crate::texts::{log_path, path_of};
use lr_family::Family;
use lr_rules::{Memory, Naming, Path, text_of};
use std::alloc::Global;

// How the members of the log of this path are named: by its name, in its directory.
fn naming_of(alloc: Global, log: u32, path: &Path) -> Result<Naming, Memory>
    requires { path.now ≡ log_path log }
    ensures { IfOk result (λ naming. naming ≡ log_naming log) }
{
    let dir = path_of(alloc, b"/v")?;
    let base = text_of(alloc, &path.bytes()[3..])?;
    let ext = text_of(alloc, b"")?;
    Ok(Naming {
        dir,
        base,
        ext,
        start: 1,
        dated: None,
        aside: false,
    })
}

#[tactic(auto, using(crate::proofs::LogLemmas::kin))]
fn family_of(alloc: Global, log: u32) -> Result<Family, Memory>
    ensures { IfOk result (λ f. (f.log ≡ log_path log) × (f.naming ≡ log_naming log)) }
{
    let path = log_path(alloc, log)?;
    let naming = naming_of(alloc, log, &path)?;
    Ok(Family::of(path, naming))
}

/// The logs of a trial.
pub fn families(alloc: Global, logs: u32) -> Result<Vec<Family>, Memory>
    ensures logs { IfOk result (λ fs. logs_of fs.items ≡ named_logs_from 0 logs) }
    ensures numbered { IfOk result (λ fs. All (λ f. f.naming.dated ≡ None) fs.items) }
{
    let mut families = Vec::new(alloc);
    for log in 0..logs {
        families.push(family_of(alloc, log)?)?;
    }
    Ok(families)
}
