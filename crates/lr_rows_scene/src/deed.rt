// What is done to the host before a call.
use crate::cut::cut_keeping;
use lr_host::{Entry, Thing};
use lr_memhost::{Act, Failing, How, MemHost};
use lr_rows_line::Trouble;
use lr_rows_read::{Cut, Mishap, What};
use lr_rules::{Listed, Path};
use std::alloc::{AllocError, Global};

/// The moment of each act of a writer, in seconds since 1970.
const ACTED: i64 = 1_705_190_600;

pub fn attach(alloc: Global, writer: u32, path: &Path) -> Result<Entry, AllocError> {
    Ok(Entry::Attach {
        writer,
        path: path.copy(alloc)?,
        at: ACTED,
    })
}

pub fn feed(alloc: Global, writer: u32, bytes: &[u8]) -> Result<Entry, AllocError> {
    Ok(Entry::Feed {
        writer,
        bytes: Listed::from_vec(Vec::from_slice(alloc, bytes)?),
        at: ACTED,
    })
}

/// Lets a writer act before the call with this number.
pub fn act(host: &mut MemHost, before: u64, what: Entry) -> Result<(), Trouble> {
    host.act(Act { before, what })?;
    Ok(())
}

fn make_anew(
    alloc: Global,
    host: &mut MemHost,
    writer: u32,
    path: &Path,
    bytes: &[u8],
) -> Result<(), Trouble> {
    if host.thing(path) == Thing::Nothing {
        act(host, 0, attach(alloc, writer, path)?)?;
        act(host, 0, feed(alloc, writer, bytes)?)?;
    }
    Ok(())
}

fn how(mishap: Mishap) -> How {
    match mishap {
        Mishap::WithoutEffect => How::NoEffect,
        Mishap::WithEffect => How::WithEffect,
        Mishap::Part(count) => How::Part(count),
        Mishap::Stop => How::Stop,
    }
}

// The file that had the path in the opening, or has it now.
fn identity_of(host: &MemHost, path: &Path) -> Result<u64, Trouble> {
    for name in host.journal().opening.names.as_slice() {
        if name.0.is(path) {
            return Ok(name.1);
        }
    }
    match host.thing(path) {
        Thing::File(identity) => Ok(identity),
        _ => Err(Trouble::Odd("no file has the path")),
    }
}

fn lengths_of(
    alloc: Global,
    host: &MemHost,
    lengths: &[(Path, u64)],
) -> Result<Vec<(u64, u64)>, Trouble> {
    let mut found = Vec::new(alloc);
    for (path, length) in lengths {
        let identity = identity_of(host, path)?;
        found.push((identity, *length))?;
    }
    Ok(found)
}

fn do_cut(alloc: Global, host: &mut MemHost, cut: &Cut) -> Result<(), Trouble> {
    let lengths = lengths_of(alloc, host, &cut.lengths)?;
    if cut_keeping(host, &cut.kept, &lengths)? == cut.is_allowed {
        Ok(())
    } else if cut.is_allowed {
        Err(Trouble::Odd("the machine can't stop so"))
    } else {
        Err(Trouble::Odd("the machine can stop so"))
    }
}

fn hold(host: &mut MemHost, by_another: bool) -> Result<(), Trouble> {
    host.hold(by_another);
    Ok(())
}

fn revive(host: &mut MemHost) -> Result<(), Trouble> {
    host.revive();
    Ok(())
}

fn fail(host: &mut MemHost, at: u64, mishap: Mishap) -> Result<(), Trouble> {
    Ok(host.fail(Failing {
        at,
        how: how(mishap),
    })?)
}

// Lets a writer act before the call of the host with this number.
fn do_act(alloc: Global, host: &mut MemHost, what: &What, number: u64) -> Result<(), Trouble> {
    match what {
        What::Attaches(writer, path) => act(host, number, attach(alloc, *writer, path)?),
        What::Feeds(writer, bytes) => act(host, number, feed(alloc, *writer, bytes)?),
        What::Flushes(writer) => act(host, number, Entry::Flush { writer: *writer }),
        What::Detaches(writer) => act(host, number, Entry::Detach { writer: *writer }),
        _ => Ok(()),
    }
}

/// Does this to the host, or lets it come before the call of the host with this number.
pub fn do_deed(alloc: Global, host: &mut MemHost, what: &What, number: u64) -> Result<(), Trouble> {
    match what {
        What::Fails(mishap) => fail(host, number, *mishap),
        What::MakesAnew(writer, path, bytes) => make_anew(alloc, host, *writer, path, bytes),
        What::Holds(by_another) => hold(host, *by_another),
        What::Revives => revive(host),
        What::Cuts(cut) => do_cut(alloc, host, cut),
        _ => do_act(alloc, host, what, number),
    }
}
