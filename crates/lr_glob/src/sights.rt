// The looks at the paths that a wildcard may give.
ghost use Rattle.std.specs.Prelude.{◌≡◌, [], ◌∷◌, ◌++◌, OnOk, IfOk, IfErr, filter};
ghost use Rattle.lr_host.specs.Looks.{Sees};
ghost use Rattle.lr_host.specs.Told.{Left, Onward, Rose};
ghost use Rattle.lr_glob.specs.Sights.{is_whole, file_at, LookedAt, LooksBroken};
ghost use Rattle.lr_glob.specs.Stops.{IsFailedGlob};

use crate::found::{Found, GlobStop};
use lr_host::{Host, Kind, Seen};
use lr_rules::{CallKind, Memory, Path};
use lr_words::has_part_end;
use std::alloc::Global;

/// The paths but for copies that aren't whole yet.
pub fn whole_ones(alloc: Global, paths: Vec<Path>) -> Result<Vec<Path>, Memory>
    ensures { IfOk result (λ whole. whole.items ≡ filter is_whole paths.items) }
{
    let mut whole = Vec::new(alloc);
    for path in paths {
        if !has_part_end(path.bytes()) {
            whole.push(path)?;
        }
    }
    Ok(whole)
}

fn add_seen(found: &mut Vec<Found>, path: Path, seen: Seen) -> Result<(), Memory>
    ensures { OnOk result (found.new.items ≡ found.old.items ++ record { path = path; seen = seen } ∷ []) }
{
    found.push(Found { path, seen })?;
    Ok(())
}

// Adds the regular file that was seen there.
fn add_file(found: &mut Vec<Found>, path: Path, look: Option<Seen>) -> Result<(), Memory>
    ensures { OnOk result (found.new.items ≡ found.old.items ++ file_at path look) }
{
    let Some(seen) = look else {
        return Ok(());
    };
    match seen.kind {
        Kind::File => add_seen(found, path, seen),
        Kind::Dir => Ok(()),
        Kind::Other => Ok(()),
    }
}

// Looks at one path, and adds the regular file there.
fn look_at<H: Host>(host: &mut H, path: Path, found: &mut Vec<Found>) -> Result<(), GlobStop>
    ensures told { OnOk result (Left (Sees path (λ seen. found.new.items ≡ found.old.items ++ file_at path seen)) (H.told host.old)
        (H.told host.new)) }
    ensures stopped { IfErr result (λ why. Left (LooksBroken (path ∷ []) why) (H.told host.old) (H.told host.new)) }
    ensures cause { IfErr result (λ why. IsFailedGlob why → Rose (H.counts host.old).faults (H.counts host.new).faults) }
    ensures counts { Onward (H.counts host.old) (H.counts host.new) }
{
    let Ok(look) = host.look(&path, false) else {
        return Err(GlobStop::Call(CallKind::Look, path));
    };
    match add_file(found, path, look) {
        Ok(()) => Ok(()),
        Err(_) => Err(GlobStop::Memory),
    }
}

/// Looks at each path, in order, without following links: the regular files that it saw.
pub fn look_at_each<H: Host>(
    alloc: Global,
    host: &mut H,
    paths: Vec<Path>,
) -> Result<Vec<Found>, GlobStop>
    ensures told { IfOk result (λ found. Left (LookedAt paths.items found.items) (H.told host.old) (H.told host.new)) }
    ensures stopped { IfErr result (λ why. Left (LooksBroken paths.items why) (H.told host.old) (H.told host.new)) }
    ensures cause { IfErr result (λ why. IsFailedGlob why → Rose (H.counts host.old).faults (H.counts host.new).faults) }
    ensures counts { Onward (H.counts host.old) (H.counts host.new) }
{
    let mut found = Vec::new(alloc);
    for path in paths {
        if let Err(stop) = look_at(host, path, &mut found) {
            return Err(stop);
        }
    }
    Ok(found)
}
