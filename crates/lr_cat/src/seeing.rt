// The looks at a log's family, where the log waits that is set aside, and at the log.
ghost use Rattle.std.specs.Prelude.{◌≡◌, ◌++◌, [], ℕ, is_some, map, true, Some, Ok, Err, IfOk, IfErr, OnOk, option_to_list};
ghost use Rattle.lr_rules.specs.Limits.{is_format, or_none};
ghost use Rattle.lr_host.specs.declared.entry.Entry.TheVariants as entry;
ghost use Rattle.lr_host.specs.Told.{Left, Can, Onward, Rose};
ghost use Rattle.lr_cat.specs.InternalSaw.{FindsNoFile, SeesAll, SeesNot, file_fault, found_if, stand_stop};
ghost use Rattle.lr_cat.specs.Saw.{Finds, FindsBoth, FindsNone, FindsNot, aside_of, files_behind};
ghost use Rattle.lr_cat.specs.Stops.{StopCause};
ghost use Rattle.lr_cat.specs.Texts.{CanReadAll, HasCause};

use crate::stop::CatStop;
use lr_family::{Family, Member, StandStop};
use lr_host::{Host, Kind};
use lr_rules::{CallKind, Fault, Memory, Path};
use std::alloc::Global;

/// What is wrong at a path where a file may stand.
#[derive(Clone, Copy)]
pub enum FileStop {
    /// The look failed.
    Call,
    /// Something else than a regular file stands there.
    NotFile,
}

/// The files of a log's history.
#[derive(Drop)]
pub struct Files {
    /// Their paths, of which the last is the oldest.
    pub paths: Vec<Path>,
    /// Whether the log that is set aside waits among them.
    pub waits: bool,
}

/// The paths of the files that stand beside the members.
#[derive(Drop)]
pub struct Found {
    /// Where the log waits that is set aside.
    pub aside: Option<Path>,
    /// The log's own.
    pub log: Option<Path>,
}

// Whether a regular file stands at the path, rather than nothing. Links aren't followed.
fn is_file<H: Host>(host: &mut H, path: &Path) -> Result<bool, FileStop>
    ensures told { IfOk result (λ there. Left (Finds (Some path.now) (found_if path.now there)) (H.told host.old)
        (H.told host.new)) }
    ensures stopped { IfErr result (λ why. Left (FindsNoFile path.now why) (H.told host.old) (H.told host.new)) }
    ensures can { result ≡ Ok true → Can (H.told host.new) (entry.Reads path.now 0 []) }
    ensures cause { result ≡ Err FileStop.Call → Rose (H.counts host.old).faults (H.counts host.new).faults }
    ensures counts { Onward (H.counts host.old) (H.counts host.new) }
{
    let Ok(look) = host.look(path, false) else {
        return Err(FileStop::Call);
    };
    let Some(seen) = look else {
        return Ok(false);
    };
    match seen.kind {
        Kind::File => Ok(true),
        Kind::Dir => Err(FileStop::NotFile),
        Kind::Other => Err(FileStop::NotFile),
    }
}

fn file_fault(why: FileStop, path: Path) -> Fault
    ensures { result ≡ file_fault why path }
{
    match why {
        FileStop::Call => Fault::Call(CallKind::Look, path),
        FileStop::NotFile => Fault::NotFile(path),
    }
}

// The path, where there is one and a regular file stands there.
fn find<H: Host>(host: &mut H, path: Option<Path>) -> Result<Option<Path>, Fault>
    ensures told { IfOk result (λ found. Left (Finds path found) (H.told host.old) (H.told host.new)) }
    ensures stopped { IfErr result (λ f. Left (FindsNot path f) (H.told host.old) (H.told host.new)) }
    ensures can { IfOk result (λ found. CanReadAll (H.told host.new) (option_to_list found)) }
    ensures cause { IfErr result (λ f. (puts later : ℕ) → HasCause f (H.counts host.old) (H.counts host.new) puts later) }
    ensures counts { Onward (H.counts host.old) (H.counts host.new) }
{
    let Some(path) = path else {
        return Ok(None);
    };
    match is_file(host, &path) {
        Ok(true) => Ok(Some(path)),
        Ok(false) => Ok(None),
        Err(why) => Err(file_fault(why, path)),
    }
}

// The files beside the members.
fn find_both<H: Host>(host: &mut H, aside: Option<Path>, log: Path) -> Result<Found, Fault>
    ensures told { IfOk result (λ found. Left (FindsBoth aside log found.aside found.log) (H.told host.old) (H.told host.new)) }
    ensures stopped { IfErr result (λ f. Left (FindsNone aside log f) (H.told host.old) (H.told host.new)) }
    ensures can_aside { IfOk result (λ found. CanReadAll (H.told host.new) (option_to_list found.aside)) }
    ensures can_log { IfOk result (λ found. CanReadAll (H.told host.new) (option_to_list found.log)) }
    ensures cause { IfErr result (λ f. (puts later : ℕ) → HasCause f (H.counts host.old) (H.counts host.new) puts later) }
    ensures counts { Onward (H.counts host.old) (H.counts host.new) }
{
    match find(host, aside) {
        Ok(aside) => match find(host, Some(log)) {
            Ok(log) => Ok(Found { aside, log }),
            Err(fault) => Err(fault),
        },
        Err(fault) => Err(fault),
    }
}

fn stand_stop(why: StandStop) -> CatStop
    ensures { result ≡ stand_stop why }
{
    match why {
        StandStop::Call(kind, path) => CatStop::Fault(Fault::Call(kind, path)),
        StandStop::NotFile(path) => CatStop::Fault(Fault::NotFile(path)),
        StandStop::Memory => CatStop::Memory,
    }
}

// Adds the path, if there is one.
fn add_found(files: &mut Vec<Path>, found: Option<Path>) -> Result<(), Memory>
    ensures { OnOk result (files.new.items ≡ files.old.items ++ option_to_list found) }
{
    if let Some(path) = found {
        files.push(path)?;
    }
    Ok(())
}

// Adds the paths of these members.
fn add_paths(alloc: Global, files: &mut Vec<Path>, members: &[Member]) -> Result<(), Memory>
    ensures { OnOk result (files.new.items ≡ files.old.items ++ map (λ m. m.path) members.now) }
{
    for member in members {
        files.push(member.path.copy(alloc)?)?;
    }
    Ok(())
}

// The files: the log, where it is there, what was set aside, and the members behind them.
fn files_of(alloc: Global, found: Found, members: &[Member]) -> Result<Files, Memory>
    ensures paths { IfOk result (λ files. files.paths.items ≡ files_behind found.log found.aside members.now) }
    ensures waits { IfOk result (λ files. files.waits ≡ is_some found.aside) }
{
    let Found { aside, log } = found;
    let waits = aside.is_some();
    let mut paths = Vec::new(alloc);
    add_found(&mut paths, log)?;
    add_found(&mut paths, aside)?;
    add_paths(alloc, &mut paths, members)?;
    Ok(Files { paths, waits })
}

/// Looks at the family, then where the log waits that is set aside, if its way does that, and at the log; the files that stand.
pub fn see<H: Host>(
    alloc: Global,
    host: &mut H,
    family: &Family,
    aside: Option<Path>,
    log: Path,
) -> Result<Files, CatStop>
    requires format { or_none is_format family.now.naming.dated ≡ true }
    requires aside { aside ≡ aside_of family.now.naming.aside log }
    ensures told { IfOk result (λ files. SeesAll family.now.naming log files.paths.items files.waits (H.told host.old)
        (H.told host.new)) }
    ensures can { IfOk result (λ files. CanReadAll (H.told host.new) files.paths.items) }
    ensures stopped { IfErr result (λ why. SeesNot family.now.naming log why (H.told host.old) (H.told host.new)) }
    ensures cause { IfErr result (λ why. (puts later : ℕ) → StopCause why (H.counts host.old) (H.counts host.new) puts later) }
    ensures counts { Onward (H.counts host.old) (H.counts host.new) }
{
    let stand = match family.stand(alloc, host) {
        Ok(stand) => stand,
        Err(why) => return Err(stand_stop(why)),
    };
    let found = match find_both(host, aside, log) {
        Ok(found) => found,
        Err(fault) => return Err(CatStop::Fault(fault)),
    };
    match files_of(alloc, found, stand.members.as_slice()) {
        Ok(files) => Ok(files),
        Err(_) => Err(CatStop::Memory),
    }
}
