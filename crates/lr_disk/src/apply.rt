// What each entry does to the state.
ghost use Rattle.lr_host.specs.declared.entry.Entry.TheVariants as entry;
ghost use Rattle.lr_host.specs.World.{World, effect};
ghost use Rattle.lr_host.specs.Told.{IsTools};
ghost use Rattle.lr_disk.specs.Tree.{IsTree};
ghost use Rattle.lr_disk.specs.State.{ShowsWorld, EntryHasRoom};

use crate::bytes::{add_bytes, empty, sync};
use crate::change::{attach, cut, detach, draw};
use crate::holds::hold_of;
use crate::state::{State, file_at_path};
use crate::tree::{change, sync_names};
use lr_host::Entry;
use lr_rules::Path;
use std::alloc::Global;

/// Does what an entry does, for which all was made ready.
pub fn apply(alloc: Global, state: &mut State, entry: &Entry)
    requires tree { IsTree state.old.tree }
    requires ready { EntryHasRoom state.old entry.now }
    ensures { (w : World) → ShowsWorld state.old w → ShowsWorld state.new (effect w entry.now) }
{
    match entry {
        Entry::Attach { writer, path, at } => attach(alloc, state, *writer, path, *at),
        Entry::Feed { writer, bytes, at } => feed(state, *writer, bytes.as_slice(), *at),
        Entry::Flush { writer } => flush(state, *writer),
        Entry::Detach { writer } => detach(state, *writer),
        Entry::Cut { kept, lengths } => cut(state, kept.as_slice(), lengths.as_slice()),
        _ => apply_call(alloc, state, entry),
    }
}

// Does what an entry of the tool does.
fn apply_call(alloc: Global, state: &mut State, entry: &Entry)
    requires tree { IsTree state.old.tree }
    requires ready { EntryHasRoom state.old entry.now }
    requires tools { IsTools entry.now }
    ensures { (w : World) → ShowsWorld state.old w → ShowsWorld state.new (effect w entry.now) }
{
    match entry {
        Entry::Starts {
            state: _,
            now,
            rules: _,
        } => state.moment = now.seconds,
        Entry::Renames { from: _, to: _ } => change(&mut state.tree),
        Entry::Makes { path: _, mode } => {
            let now = state.moment;
            draw(alloc, state, now, *mode);
        }
        Entry::Appends { path, bytes } => append(state, path, bytes.as_slice()),
        Entry::Truncates { path } => truncate(state, path),
        Entry::Unlinks { path: _ } => change(&mut state.tree),
        Entry::SyncsFile { path } => sync_file(state, path),
        Entry::SyncsDir { path } => sync_names(&mut state.tree, path),
        Entry::MakesDir { path: _, mode: _ } => change(&mut state.tree),
        _ => {}
    }
}

fn feed(state: &mut State, writer: u32, bytes: &[u8], at: i64)
    requires { EntryHasRoom state.old (entry.Feed writer bytes.now at) }
    ensures { (w : World) → ShowsWorld state.old w → ShowsWorld state.new (effect w (entry.Feed writer bytes.now at)) }
{
    let file = hold_of(&state.holds, writer);
    add_bytes(state, file, bytes, at);
}

fn flush(state: &mut State, writer: u32)
    ensures { (w : World) → ShowsWorld state.old w → ShowsWorld state.new (effect w (entry.Flush writer)) }
{
    let file = hold_of(&state.holds, writer);
    sync(state, file);
}

fn append(state: &mut State, path: &Path, bytes: &[u8])
    requires { EntryHasRoom state.old (entry.Appends path.now bytes.now) }
    ensures { (w : World) → ShowsWorld state.old w → ShowsWorld state.new (effect w (entry.Appends path.now bytes.now)) }
{
    let file = file_at_path(state, path);
    let now = state.moment;
    add_bytes(state, file, bytes, now);
}

fn truncate(state: &mut State, path: &Path)
    ensures { (w : World) → ShowsWorld state.old w → ShowsWorld state.new (effect w (entry.Truncates path.now)) }
{
    let file = file_at_path(state, path);
    let now = state.moment;
    empty(state, file, now);
}

fn sync_file(state: &mut State, path: &Path)
    ensures { (w : World) → ShowsWorld state.old w → ShowsWorld state.new (effect w (entry.SyncsFile path.now)) }
{
    let file = file_at_path(state, path);
    sync(state, file);
}
