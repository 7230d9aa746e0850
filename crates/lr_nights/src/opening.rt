// The host on which a trial begins.
ghost use Rattle.std.specs.Prelude.{◌≡◌, ◌≤◌, ◌∷◌, [], ◌++◌, codes, replicate, OnOk, IfOk};
ghost use Rattle.lr_nights.specs.Opening.{file_of, log_path, log_names_from, holds_from, directories, state_lines_from};
ghost use Rattle.lr_nights.specs.Opening.{trial_opening, trial_view};

use crate::texts::{add_state_lines, configuration, log_path, path_of};
use lr_host::{OpenFile, Opening};
use lr_memhost::MemHost;
use lr_rules::{Listed, Memory, Path};
use std::alloc::Global;

// A file of these bytes, which was synced whole.
fn file_of(bytes: Vec<u8>) -> OpenFile
    ensures { result ≡ file_of bytes.items }
{
    let synced = bytes.len() as u64;
    OpenFile {
        bytes: Listed::from_vec(bytes),
        synced,
        mtime: 1_704_067_500,
        mode: None,
    }
}

fn state_text(alloc: Global, logs: u32) -> Result<Vec<u8>, Memory>
    ensures { IfOk result (λ text. text.items ≡ codes "logrotate state -- version 2\n" ++ state_lines_from 0 logs) }
{
    let mut text = Vec::from_slice(alloc, b"logrotate state -- version 2\n")?;
    add_state_lines(&mut text, logs)?;
    Ok(text)
}

fn empty_logs(alloc: Global, logs: u32) -> Result<Vec<OpenFile>, Memory>
    ensures { IfOk result (λ files. files.items ≡ replicate logs (file_of [])) }
{
    let mut files = Vec::new(alloc);
    for _log in 0..logs {
        files.push(file_of(Vec::new(alloc)))?;
    }
    Ok(files)
}

// The files: the logs, the configuration and the state.
fn files(alloc: Global, logs: u32) -> Result<Vec<OpenFile>, Memory>
    ensures { IfOk result (λ files. files.items ≡ (trial_opening logs).files) }
{
    let mut files = empty_logs(alloc, logs)?;
    files.push(file_of(configuration(alloc, logs)?))?;
    files.push(file_of(state_text(alloc, logs)?))?;
    Ok(files)
}

fn add_path(paths: &mut Vec<Path>, alloc: Global, text: &[u8]) -> Result<(), Memory>
    ensures { OnOk result (paths.new.items ≡ paths.old.items ++ text.now ∷ []) }
{
    paths.push(path_of(alloc, text)?)?;
    Ok(())
}

fn directories(alloc: Global) -> Result<Vec<Path>, Memory>
    ensures { IfOk result (λ paths. paths.items ≡ directories) }
{
    let mut paths = Vec::new(alloc);
    add_path(&mut paths, alloc, b"/")?;
    add_path(&mut paths, alloc, b"/etc")?;
    add_path(&mut paths, alloc, b"/v")?;
    add_path(&mut paths, alloc, b"/var")?;
    add_path(&mut paths, alloc, b"/var/lib")?;
    add_path(&mut paths, alloc, b"/var/lib/logrotate")?;
    Ok(paths)
}

// The name of a log, with its identity.
fn log_name(alloc: Global, log: u32) -> Result<(Path, u64), Memory>
    ensures { IfOk result (λ name. name ≡ (log_path log, log)) }
{
    Ok((log_path(alloc, log)?, u64::from(log)))
}

fn log_names(alloc: Global, logs: u32) -> Result<Vec<(Path, u64)>, Memory>
    ensures { IfOk result (λ names. names.items ≡ log_names_from 0 logs) }
{
    let mut names = Vec::new(alloc);
    for log in 0..logs {
        names.push(log_name(alloc, log)?)?;
    }
    Ok(names)
}

// A file's name, with its identity.
fn named(alloc: Global, path: &[u8], identity: u64) -> Result<(Path, u64), Memory>
    ensures { IfOk result (λ name. name ≡ (path.now, identity)) }
{
    Ok((path_of(alloc, path)?, identity))
}

// The names: those of the logs, of the configuration and of the state.
#[tactic(auto, using(std::proofs::lemmas::List::append_assoc))]
fn names(alloc: Global, logs: u32) -> Result<Vec<(Path, u64)>, Memory>
    ensures { IfOk result (λ names. names.items ≡ (trial_opening logs).names) }
{
    let identity = u64::from(logs);
    let mut names = log_names(alloc, logs)?;
    names.push(named(alloc, b"/etc/c", identity)?)?;
    names.push(named(alloc, b"/var/lib/logrotate/status", identity + 1)?)?;
    Ok(names)
}

// Its writer holds the log.
fn hold(log: u32) -> (u32, u64)
    ensures { result ≡ (log, log) }
{
    (log, u64::from(log))
}

fn holds(alloc: Global, logs: u32) -> Result<Vec<(u32, u64)>, Memory>
    ensures { IfOk result (λ holds. holds.items ≡ holds_from 0 logs) }
{
    let mut holds = Vec::new(alloc);
    for log in 0..logs {
        holds.push(hold(log))?;
    }
    Ok(holds)
}

fn opening(alloc: Global, logs: u32) -> Result<Opening, Memory>
    ensures { IfOk result (λ o. o ≡ trial_opening logs) }
{
    let files = Listed::from_vec(files(alloc, logs)?);
    let dirs = Listed::from_vec(directories(alloc)?);
    let names = Listed::from_vec(names(alloc, logs)?);
    let holds = Listed::from_vec(holds(alloc, logs)?);
    let others = Listed::new(alloc);
    Ok(Opening {
        files,
        dirs,
        others,
        names,
        holds,
    })
}

/// A host over the disk of so many logs, 1 to 64, which are all due and which their writers hold.
pub fn trial_host(alloc: Global, logs: u32) -> Result<MemHost, Memory>
    requires { (1 ≤ logs) × (logs ≤ 64) }
    ensures { IfOk result (λ host. host ≡ trial_view logs) }
{
    let opening = opening(alloc, logs)?;
    let acts = Vec::new(alloc);
    let failing = Vec::new(alloc);
    let ends = Vec::new(alloc);
    match MemHost::new(alloc, opening, acts, failing, ends, 65_536) {
        Ok(host) => Ok(host),
        // The opening is that of a disk, so this is want of memory.
        Err(_) => Err(Memory),
    }
}
