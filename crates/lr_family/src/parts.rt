// The part files of members.
ghost use Rattle.std.specs.Prelude.{◌≡◌, ◌++◌, ◌↔◌, true, IfOk, IfErr, OnOk};
ghost use Rattle.lr_rules.specs.Limits.{is_format, or_none};
ghost use Rattle.lr_rules.specs.Path.{joined};
ghost use Rattle.lr_host.specs.Listing.{NamesRise};
ghost use Rattle.lr_host.specs.Told.{Left, Onward, Rose};
ghost use Rattle.lr_family.specs.InternalParts.{AddsPart, HasParts, SeesParts, SeesSomeParts};
ghost use Rattle.lr_family.specs.Parts.{IsMember, IsMembersPart, AreParts, PartsAmong, ShowsNoParts, part_seen};
ghost use Rattle.lr_family.specs.Stands.{IsFailedStand};

use crate::name::{path_in, place_in};
use crate::prefix::names_with;
use crate::stand::StandStop;
use lr_host::{Host, Kind, Seen, leave_once};
use lr_rules::{CallKind, Listed, Memory, Naming, Path, Text};
use std::alloc::Global;

const PART_END: &[u8] = b".logrotate-part";

// Whether the name is a member's.
fn is_member(naming: &Naming, name: &[u8]) -> bool
    requires { or_none is_format naming.now.dated ≡ true }
    ensures { (result ≡ true) ↔ IsMember naming.now (joined naming.now.dir name.now) }
{
    place_in(naming, name).is_some()
}

// Whether the name is that of a member's part file.
fn is_part(naming: &Naming, name: &[u8]) -> bool
    requires { or_none is_format naming.now.dated ≡ true }
    ensures { (result ≡ true) ↔ IsMembersPart naming.now (joined naming.now.dir name.now) }
{
    match name.strip_suffix(PART_END) {
        Some(member) => is_member(naming, member),
        None => false,
    }
}

// Adds the path of this name, where it is that of a member's part file.
fn add_part(
    alloc: Global,
    paths: &mut Vec<Path>,
    naming: &Naming,
    name: &Text,
) -> Result<(), Memory>
    requires { or_none is_format naming.now.dated ≡ true }
    ensures { OnOk result (AddsPart naming.now name.now paths.old.items paths.new.items) }
{
    if is_part(naming, name.bytes()) {
        let path = path_in(alloc, &naming.dir, name)?;
        paths.push(path)?;
    }
    Ok(())
}

// The part files among the names, in the order of the names.
fn parts_in(alloc: Global, naming: &Naming, names: &[Text]) -> Result<Vec<Path>, Memory>
    requires format { or_none is_format naming.now.dated ≡ true }
    requires rising { NamesRise names.now }
    ensures { IfOk result (λ paths. HasParts naming.now names.now paths.items) }
{
    let mut paths = Vec::new(alloc);
    for name in names {
        add_part(alloc, &mut paths, naming, name)?;
    }
    Ok(paths)
}

// The same: those names that begin as a member's are enough.
fn parts_with(alloc: Global, naming: &Naming, names: &[Text]) -> Result<Vec<Path>, Memory>
    requires format { or_none is_format naming.now.dated ≡ true }
    requires rising { NamesRise names.now }
    ensures { IfOk result (λ paths. HasParts naming.now names.now paths.items) }
{
    parts_in(alloc, naming, names_with(names, naming.base.bytes()))
}

// The same part files, each once.
fn each_once(naming: &Naming, names: &[Text], paths: &mut Vec<Path>)
    requires { HasParts naming.now names.now paths.old.items }
    ensures { AreParts naming.now names.now paths.new.items }
{
    leave_once(paths);
}

// Adds the part file, where the look saw a regular file: whatever else has its path is none.
fn add_seen(parts: &mut Vec<Path>, path: Path, seen: Option<Seen>) -> Result<(), Memory>
    ensures { OnOk result (parts.new.items ≡ parts.old.items ++ part_seen path seen) }
{
    if let Some(seen) = seen {
        match seen.kind {
            Kind::File => parts.push(path)?,
            Kind::Dir => {}
            Kind::Other => {}
        }
    }
    Ok(())
}

// Looks at each of these paths, in order, and gives those that are regular files.
fn look_at_parts<H: Host>(
    alloc: Global,
    host: &mut H,
    paths: Vec<Path>,
) -> Result<Vec<Path>, StandStop>
    ensures told { IfOk result (λ parts. Left (SeesParts paths.items parts.items) (H.told host.old) (H.told host.new)) }
    ensures stopped { IfErr result (λ stop. Left (SeesSomeParts paths.items stop) (H.told host.old) (H.told host.new)) }
    ensures cause { IfErr result (λ stop. IsFailedStand stop → Rose (H.counts host.old).faults (H.counts host.new).faults) }
    ensures counts { Onward (H.counts host.old) (H.counts host.new) }
{
    let mut parts = Vec::new(alloc);
    for path in paths {
        let Ok(seen) = host.look(&path, false) else {
            return Err(StandStop::Call(CallKind::Look, path));
        };
        if add_seen(&mut parts, path, seen).is_err() {
            return Err(StandStop::Memory);
        }
    }
    Ok(parts)
}

// The part files among the names, each once, in order of bytes.
fn paths_among(alloc: Global, naming: &Naming, names: &[Text]) -> Result<Vec<Path>, Memory>
    requires format { or_none is_format naming.now.dated ≡ true }
    requires rising { NamesRise names.now }
    ensures { IfOk result (λ paths. AreParts naming.now names.now paths.items) }
{
    let mut paths = parts_with(alloc, naming, names)?;
    each_once(naming, names, &mut paths);
    Ok(paths)
}

/// Which part files of a family's members stand, numbered or dated ones: looks at each among the names of its directory,
/// in order of bytes. Something else than a regular file at such a path is none, and no cause to stop.
pub fn parts_among<H: Host>(
    alloc: Global,
    host: &mut H,
    naming: &Naming,
    names: &[Text],
) -> Result<Listed<Path>, StandStop>
    requires format { or_none is_format naming.now.dated ≡ true }
    requires rising { NamesRise names.now }
    ensures told { IfOk result (λ parts. Left (PartsAmong naming.now names.now parts) (H.told host.old) (H.told host.new)) }
    ensures stopped { IfErr result (λ stop. Left (ShowsNoParts naming.now names.now stop) (H.told host.old) (H.told host.new)) }
    ensures cause { IfErr result (λ stop. IsFailedStand stop → Rose (H.counts host.old).faults (H.counts host.new).faults) }
    ensures counts { Onward (H.counts host.old) (H.counts host.new) }
{
    let Ok(paths) = paths_among(alloc, naming, names) else {
        return Err(StandStop::Memory);
    };
    match look_at_parts(alloc, host, paths) {
        Ok(parts) => Ok(Listed::from_vec(parts)),
        Err(stop) => Err(stop),
    }
}
