// One visit of a directory.
ghost use Rattle.std.specs.Prelude.{◌≡◌, [], true, IfOk, IfErr, Ok, Err};
ghost use Rattle.lr_host.specs.declared.entry.Entry.TheVariants as entry;
ghost use Rattle.lr_host.specs.Told.{Left, Are, Can, Onward, Rose};
ghost use Rattle.lr_host.specs.Looks.{Sees, is_dir};
ghost use Rattle.lr_glob.specs.Visits.{Visited};
ghost use Rattle.lr_glob.specs.Stops.{NotVisited};
ghost use Rattle.lr_glob.specs.Listing.{Lists, IsFailed};

use lr_host::{CallFault, Host, ListFault, shows_dir};
use lr_rules::{Path, Text};
use std::alloc::Global;

/// Why a visit ended before its names were there.
#[derive(Clone, Copy)]
pub enum VisitStop {
    /// The look failed.
    Look,
    /// The listing failed.
    List,
    Memory,
}

// Whether the path is a directory. Links are followed.
fn look_for_dir<H: Host>(host: &mut H, dir: &Path) -> Result<bool, CallFault>
    ensures told { IfOk result (λ there. Left (Sees dir.now (λ seen. is_dir seen ≡ there)) (H.told host.old) (H.told host.new)) }
    ensures stopped { IfErr result (λ fault. Left (Are []) (H.told host.old) (H.told host.new)) }
    ensures list { result ≡ Ok true → Can (H.told host.new) (entry.List dir.now []) }
    ensures cause { IfErr result (λ fault. Rose (H.counts host.old).faults (H.counts host.new).faults) }
    ensures counts { Onward (H.counts host.old) (H.counts host.new) }
{
    match host.look(dir, true) {
        Ok(look) => Ok(shows_dir(look)),
        Err(fault) => Err(fault),
    }
}

// The names in the directory, which is there.
fn list<H: Host>(alloc: Global, host: &mut H, dir: &Path) -> Result<Vec<Text>, VisitStop>
    requires list { Can (H.told host.old) (entry.List dir.now []) }
    ensures told { IfOk result (λ names. Left (Lists dir.now names.items) (H.told host.old) (H.told host.new)) }
    ensures stopped { IfErr result (λ stop. Left (Are []) (H.told host.old) (H.told host.new)) }
    ensures late { IfErr result IsFailed }
    ensures cause { result ≡ Err VisitStop.List → Rose (H.counts host.old).faults (H.counts host.new).faults }
    ensures counts { Onward (H.counts host.old) (H.counts host.new) }
{
    let mut names = Vec::new(alloc);
    match host.list(alloc, dir, &mut names) {
        Ok(()) => Ok(names),
        Err(ListFault::Failed) => Err(VisitStop::List),
        Err(ListFault::Memory) => Err(VisitStop::Memory),
    }
}

/// The names in the directory; none where the path is no directory. Links are followed.
pub fn visit<H: Host>(alloc: Global, host: &mut H, dir: &Path) -> Result<Vec<Text>, VisitStop>
    ensures told { IfOk result (λ names. Left (Visited dir.now names.items) (H.told host.old) (H.told host.new)) }
    ensures stopped { IfErr result (λ stop. Left (NotVisited dir.now stop) (H.told host.old) (H.told host.new)) }
    ensures look { result ≡ Err VisitStop.Look → Rose (H.counts host.old).faults (H.counts host.new).faults }
    ensures list { result ≡ Err VisitStop.List → Rose (H.counts host.old).faults (H.counts host.new).faults }
    ensures counts { Onward (H.counts host.old) (H.counts host.new) }
{
    match look_for_dir(host, dir) {
        Ok(true) => list(alloc, host, dir),
        Ok(false) => Ok(Vec::new(alloc)),
        Err(_) => Err(VisitStop::Look),
    }
}
