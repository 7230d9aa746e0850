// The nights are lived through: writers act, the machine stops and is revived, and the runs are made.
use crate::month::{Fed, Night};
use crate::texts::log_path;
use lr_host::Entry;
use lr_memhost::{Act, Failing, How, MemHost};
use lr_rules::{Listed, Memory};
use std::alloc::Global;

/// What is run over the host: nothing is asked of it, so it has no contract.
pub trait Run {
    /// Makes a run at this moment, in seconds since 1970. Want of memory ends the trial.
    fn run(&self, alloc: Global, host: &mut MemHost, now: i64) -> Result<(), Memory>;
}

// A writer is to do this before the next call.
fn act(host: &mut MemHost, what: Entry) -> Result<(), Memory> {
    let before = host.calls();
    host.act(Act { before, what })
}

fn letters(alloc: Global, fed: &Fed) -> Result<Vec<u8>, Memory> {
    let mut bytes = Vec::new(alloc);
    bytes.resize(fed.count as usize, fed.letter)?;
    Ok(bytes)
}

fn feed(alloc: Global, host: &mut MemHost, fed: &Fed) -> Result<(), Memory> {
    let bytes = Listed::from_vec(letters(alloc, fed)?);
    let what = Entry::Feed {
        writer: fed.writer,
        bytes,
        at: fed.at,
    };
    act(host, what)
}

// The writer takes the log anew, and makes it where it is missing.
fn attach(alloc: Global, host: &mut MemHost, writer: u32, at: i64) -> Result<(), Memory> {
    let path = log_path(alloc, writer)?;
    act(host, Entry::Attach { writer, path, at })
}

fn attach_all(alloc: Global, host: &mut MemHost, logs: u32, at: i64) -> Result<(), Memory> {
    for writer in 0..logs {
        attach(alloc, host, writer, at)?;
    }
    Ok(())
}

// What the writers do before the run: each appends, and then each lets its file go and takes its log anew.
fn write(alloc: Global, host: &mut MemHost, logs: u32, night: &Night) -> Result<(), Memory> {
    for fed in night.feeds.as_slice() {
        feed(alloc, host, fed)?;
    }
    for writer in 0..logs {
        act(host, Entry::Detach { writer })?;
        attach(alloc, host, writer, night.seconds)?;
    }
    Ok(())
}

// The machine stops, and nothing that was done is lost.
fn cut_nothing(alloc: Global, host: &mut MemHost) -> Result<(), Memory> {
    let mut kept = Vec::new(alloc);
    for place in 0..host.unsynced() {
        kept.push(place)?;
    }
    match host.cut(&kept, &[]) {
        Ok(()) => Ok(()),
        // All of them may stay, so this is want of memory.
        Err(_) => Err(Memory),
    }
}

// A run that is stopped behind so many calls, and the same again on the machine that came back. Where it makes fewer calls it
// isn't stopped, and the machine comes back all the same.
fn run_stopped<R: Run>(
    alloc: Global,
    run: &R,
    host: &mut MemHost,
    logs: u32,
    now: i64,
    behind: u64,
) -> Result<(), Memory> {
    let at = host.calls().saturating_add(behind);
    host.fail(Failing { at, how: How::Stop })?;
    run.run(alloc, host, now)?;
    host.revive();
    cut_nothing(alloc, host)?;
    attach_all(alloc, host, logs, now)?;
    run.run(alloc, host, now)
}

fn live_night<R: Run>(
    alloc: Global,
    run: &R,
    host: &mut MemHost,
    logs: u32,
    night: &Night,
) -> Result<(), Memory> {
    write(alloc, host, logs, night)?;
    match night.stop {
        Some(behind) => run_stopped(alloc, run, host, logs, night.seconds, behind),
        None => run.run(alloc, host, night.seconds),
    }
}

/// Lives through the nights of so many logs. What they leave is for the journal to tell.
pub fn live<R: Run>(
    alloc: Global,
    run: &R,
    host: &mut MemHost,
    logs: u32,
    nights: &[Night],
) -> Result<(), Memory> {
    for night in nights {
        live_night(alloc, run, host, logs, night)?;
    }
    if host.starved() > 0 {
        return Err(Memory);
    }
    Ok(())
}
