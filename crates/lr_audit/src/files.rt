// The regular files in directories.
ghost use Rattle.std.specs.Prelude.{◌≡◌, ◌≢◌, ◌++◌, ◌∷◌, [], IfOk, OnOk, OnErr};
ghost use Rattle.lr_host.specs.Counted.{WentBy};
ghost use Rattle.lr_host.specs.Quiet.{AreQuiet};
ghost use Rattle.lr_host.specs.Told.{Left};
ghost use Rattle.lr_family.specs.declared.stand.StandStop.TheVariants as stop;
ghost use Rattle.lr_audit.specs.Files.{paths_of_names, file_path, list_fault, AddsFiles, LookedAtEach, ShowsFilesIn, ShowsDirs};

use lr_family::{Listing, StandStop};
use lr_host::{Host, Kind, Seen};
use lr_rules::{CallKind, Fault, Memory, Path, Text};
use std::alloc::Global;

// Adds the path of a name in the directory, where it is one.
fn add_path(alloc: Global, paths: &mut Vec<Path>, dir: &Path, name: &Text) -> Result<(), Memory>
    ensures { OnOk result (paths.new.items ≡ paths.old.items ++ paths_of_names dir.now (name.now ∷ [])) }
{
    match dir.join(alloc, name.bytes()) {
        Ok(path) => Ok(paths.push(path)?),
        Err(fault) => fault.passed_over(),
    }
}

// The paths of these names in the directory.
fn paths_in(alloc: Global, dir: &Path, names: &[Text]) -> Result<Vec<Path>, Memory>
    ensures { IfOk result (λ paths. paths.items ≡ paths_of_names dir.now names.now) }
{
    let mut paths = Vec::new(alloc);
    for name in names {
        add_path(alloc, &mut paths, dir, name)?;
    }
    Ok(paths)
}

// Adds the path, where the look saw a regular file.
fn add_file(files: &mut Vec<Path>, path: Path, look: Option<Seen>) -> Result<(), Memory>
    ensures { OnOk result (files.new.items ≡ files.old.items ++ file_path path look) }
{
    let Some(seen) = look else {
        return Ok(());
    };
    match seen.kind {
        Kind::File => Ok(files.push(path)?),
        Kind::Dir => Ok(()),
        Kind::Other => Ok(()),
    }
}

// Looks at the path: adds it where a regular file stands there, or a fault where the look failed.
fn look_at<H: Host>(
    host: &mut H,
    path: Path,
    files: &mut Vec<Path>,
    faults: &mut Vec<Fault>,
) -> Result<(), Memory>
    ensures told { OnOk result (Left (AddsFiles (LookedAtEach
        (path ∷ [])) files.old.items files.new.items faults.old.items faults.new.items) (H.told host.old) (H.told host.new)) }
    ensures some { OnErr result (Left AreQuiet (H.told host.old) (H.told host.new)) }
    ensures went { WentBy result faults.old.items faults.new.items (H.counts host.old) (H.counts host.new) }
{
    match host.look(&path, false) {
        Ok(look) => add_file(files, path, look),
        Err(_) => Ok(faults.push(Fault::Call(CallKind::Look, path))?),
    }
}

// Looks at each of these paths, in order.
fn look_at_each<H: Host>(
    host: &mut H,
    paths: Vec<Path>,
    files: &mut Vec<Path>,
    faults: &mut Vec<Fault>,
) -> Result<(), Memory>
    ensures told { OnOk result (Left (AddsFiles (LookedAtEach paths.items) files.old.items files.new.items faults.old.items
        faults.new.items) (H.told host.old) (H.told host.new)) }
    ensures some { OnErr result (Left AreQuiet (H.told host.old) (H.told host.new)) }
    ensures went { WentBy result faults.old.items faults.new.items (H.counts host.old) (H.counts host.new) }
{
    for path in paths {
        look_at(host, path, files, faults)?;
    }
    Ok(())
}

// Looks at each name that was listed in the directory.
fn look_at_names<H: Host>(
    alloc: Global,
    host: &mut H,
    dir: &Path,
    names: &[Text],
    files: &mut Vec<Path>,
    faults: &mut Vec<Fault>,
) -> Result<(), Memory>
    ensures told { OnOk result (Left (AddsFiles (LookedAtEach
        (paths_of_names dir.now names.now)) files.old.items files.new.items faults.old.items faults.new.items) (H.told host.old)
        (H.told host.new)) }
    ensures some { OnErr result (Left AreQuiet (H.told host.old) (H.told host.new)) }
    ensures went { WentBy result faults.old.items faults.new.items (H.counts host.old) (H.counts host.new) }
{
    let paths = paths_in(alloc, dir, names)?;
    look_at_each(host, paths, files, faults)
}

// Adds the fault of a directory that couldn't be listed; in what is no directory no file stands.
fn add_stop(faults: &mut Vec<Fault>, why: StandStop) -> Result<(), Memory>
    ensures known { OnOk result (why ≢ stop.Memory) }
    ensures faults { OnOk result (faults.new.items ≡ faults.old.items ++ list_fault why) }
{
    match why {
        StandStop::Call(kind, path) => Ok(faults.push(Fault::Call(kind, path))?),
        StandStop::NotFile(_) => Ok(()),
        StandStop::Memory => Err(Memory),
    }
}

// Adds the regular files in the directory.
fn add_dir<H: Host>(
    alloc: Global,
    host: &mut H,
    dir: &Path,
    files: &mut Vec<Path>,
    faults: &mut Vec<Fault>,
) -> Result<(), Memory>
    ensures told { OnOk result (Left (AddsFiles (ShowsFilesIn dir.now) files.old.items files.new.items faults.old.items
        faults.new.items) (H.told host.old) (H.told host.new)) }
    ensures some { OnErr result (Left AreQuiet (H.told host.old) (H.told host.new)) }
    ensures went { WentBy result faults.old.items faults.new.items (H.counts host.old) (H.counts host.new) }
{
    match Listing::take(alloc, host, dir) {
        Ok(listing) => look_at_names(alloc, host, dir, listing.names(), files, faults),
        Err(why) => add_stop(faults, why),
    }
}

/// Adds the regular files in these directories, each of which is listed once, and each listed name looked at once. A failed
/// call takes away the files of its directory, or that of its name, and has a fault of its own.
pub fn add_files<H: Host>(
    alloc: Global,
    host: &mut H,
    dirs: &[Path],
    files: &mut Vec<Path>,
    faults: &mut Vec<Fault>,
) -> Result<(), Memory>
    ensures told { OnOk result (Left (AddsFiles (ShowsDirs dirs.now) files.old.items files.new.items faults.old.items
        faults.new.items) (H.told host.old) (H.told host.new)) }
    ensures some { OnErr result (Left AreQuiet (H.told host.old) (H.told host.new)) }
    ensures went { WentBy result faults.old.items faults.new.items (H.counts host.old) (H.counts host.new) }
{
    for dir in dirs {
        add_dir(alloc, host, dir, files, faults)?;
    }
    Ok(())
}
