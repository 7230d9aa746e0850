// One part of a word, in each of the directories to which the parts before it led.
ghost use Rattle.std.specs.Prelude.{◌≡◌, OnOk, IfOk, IfErr};
ghost use Rattle.lr_host.specs.Told.{Left, Onward, Rose};
ghost use Rattle.lr_glob.specs.Rounds.{Followed};
ghost use Rattle.lr_glob.specs.Stops.{glob_stop, IsFailedGlob, RoundBroken, NotFollowed};
ghost use Rattle.lr_glob.specs.Turns.{VisitAdds, VisitsGive, VisitBroken};

use crate::found::GlobStop;
use crate::picking::{add_matches, joined_in_each};
use crate::visit::{VisitStop, visit};
use lr_host::Host;
use lr_rules::{CallKind, Path, Text};
use lr_words::is_wildcard;
use std::alloc::Global;

fn stop_at(stop: VisitStop, dir: Path) -> GlobStop
    ensures { result ≡ glob_stop stop dir }
{
    match stop {
        VisitStop::Look => GlobStop::Call(CallKind::Look, dir),
        VisitStop::List => GlobStop::Call(CallKind::List, dir),
        VisitStop::Memory => GlobStop::Memory,
    }
}

// Visits one directory, and adds the paths of the names that the part matches.
fn visit_one<H: Host>(
    alloc: Global,
    host: &mut H,
    part: &Text,
    dir: Path,
    into: &mut Vec<Path>,
) -> Result<(), GlobStop>
    ensures told { OnOk result (Left (VisitAdds part.now dir into.old.items into.new.items) (H.told host.old) (H.told host.new)) }
    ensures stopped { IfErr result (λ why. Left (VisitBroken dir why) (H.told host.old) (H.told host.new)) }
    ensures cause { IfErr result (λ why. IsFailedGlob why → Rose (H.counts host.old).faults (H.counts host.new).faults) }
    ensures counts { Onward (H.counts host.old) (H.counts host.new) }
{
    let names = match visit(alloc, host, &dir) {
        Ok(names) => names,
        Err(stop) => return Err(stop_at(stop, dir)),
    };
    match add_matches(alloc, part, &dir, names.as_slice(), into) {
        Ok(()) => Ok(()),
        Err(_) => Err(GlobStop::Memory),
    }
}

// Visits each of the directories, in order.
fn visit_each<H: Host>(
    alloc: Global,
    host: &mut H,
    part: &Text,
    dirs: Vec<Path>,
) -> Result<Vec<Path>, GlobStop>
    ensures told { IfOk result (λ paths. Left (VisitsGive part.now dirs.items paths.items) (H.told host.old) (H.told host.new)) }
    ensures stopped { IfErr result (λ why. Left (RoundBroken dirs.items why) (H.told host.old) (H.told host.new)) }
    ensures cause { IfErr result (λ why. IsFailedGlob why → Rose (H.counts host.old).faults (H.counts host.new).faults) }
    ensures counts { Onward (H.counts host.old) (H.counts host.new) }
{
    let mut paths = Vec::new(alloc);
    for dir in dirs {
        if let Err(stop) = visit_one(alloc, host, part, dir, &mut paths) {
            return Err(stop);
        }
    }
    Ok(paths)
}

/// The paths to which the part leads from these: a wildcard to the names that it matches in each of them, another part
/// to its one name in each, without any call.
pub fn follow<H: Host>(
    alloc: Global,
    host: &mut H,
    part: &Text,
    dirs: Vec<Path>,
) -> Result<Vec<Path>, GlobStop>
    ensures told { IfOk result (λ paths. Left (Followed part.now dirs.items paths.items) (H.told host.old) (H.told host.new)) }
    ensures stopped { IfErr result (λ why. Left (NotFollowed part.now dirs.items why) (H.told host.old) (H.told host.new)) }
    ensures cause { IfErr result (λ why. IsFailedGlob why → Rose (H.counts host.old).faults (H.counts host.new).faults) }
    ensures counts { Onward (H.counts host.old) (H.counts host.new) }
{
    if is_wildcard(part.bytes()) {
        return visit_each(alloc, host, part, dirs);
    }
    match joined_in_each(alloc, part, dirs.as_slice()) {
        Ok(paths) => Ok(paths),
        Err(_) => Err(GlobStop::Memory),
    }
}
