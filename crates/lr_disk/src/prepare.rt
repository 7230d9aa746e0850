// Room for what an entry changes, so that nothing can fail once the entry stands.
ghost use Rattle.std.specs.Prelude.{◌≡◌, true, OnOk};
ghost use Rattle.lr_host.specs.World.{World, Puts, Moves, Drops};
ghost use Rattle.lr_host.specs.declared.thing.Thing.TheVariants as thing;
ghost use Rattle.lr_disk.specs.Names.{named_in};
ghost use Rattle.lr_disk.specs.Tree.{IsTree, CanChange};
ghost use Rattle.lr_disk.specs.State.{ShowsWorld, EntryHasRoom, CanDraw, FileHasRoom, file_named, hold_in, has_writer};

use crate::bytes::make_room;
use crate::holds::{hold_of, make_hold};
use crate::state::{State, file_at_path};
use crate::tree::{make_drop, make_move, make_put};
use lr_host::{Entry, Thing};
use lr_rules::Path;
use std::alloc::{AllocError, Global};

/// Makes room for what an entry changes. Nothing changes.
pub fn prepare(alloc: Global, state: &mut State, entry: &Entry) -> Result<(), AllocError>
    requires { IsTree state.old.tree }
    ensures same { (w : World) → ShowsWorld state.old w → ShowsWorld state.new w }
    ensures ready { OnOk result (EntryHasRoom state.new entry.now) }
{
    match entry {
        Entry::Attach {
            writer,
            path,
            at: _,
        } => prepare_attach(alloc, state, *writer, path),
        Entry::Feed {
            writer,
            bytes,
            at: _,
        } => prepare_feed(state, *writer, bytes.len()),
        Entry::Detach { writer } => prepare_hold(state, *writer),
        Entry::Renames { from, to } => prepare_move(alloc, state, from, to),
        Entry::Makes { path, mode: _ } => prepare_draw(alloc, state, path),
        Entry::Appends { path, bytes } => prepare_append(state, path, bytes.len()),
        Entry::Unlinks { path } => prepare_drop(alloc, state, path),
        Entry::MakesDir { path, mode: _ } => prepare_directory(alloc, state, path),
        _ => Ok(()),
    }
}

fn prepare_attach(
    alloc: Global,
    state: &mut State,
    writer: u32,
    path: &Path,
) -> Result<(), AllocError>
    requires { IsTree state.old.tree }
    ensures same { (w : World) → ShowsWorld state.old w → ShowsWorld state.new w }
    ensures draw { OnOk result (CanDraw state.new path.now) }
    ensures hold { OnOk result (has_writer state.new.holds.items writer ≡ true) }
{
    prepare_draw(alloc, state, path)?;
    make_hold(&mut state.holds, writer)
}

fn prepare_feed(state: &mut State, writer: u32, more: usize) -> Result<(), AllocError>
    ensures same { (w : World) → ShowsWorld state.old w → ShowsWorld state.new w }
    ensures room { OnOk result (FileHasRoom state.new (hold_in state.new.holds.items writer) more) }
{
    let file = hold_of(&state.holds, writer);
    make_room(state, file, more)
}

fn prepare_append(state: &mut State, path: &Path, more: usize) -> Result<(), AllocError>
    ensures same { (w : World) → ShowsWorld state.old w → ShowsWorld state.new w }
    ensures room { OnOk result (FileHasRoom state.new (file_named (named_in state.new.tree.names.items path.now)) more) }
{
    let file = file_at_path(state, path);
    make_room(state, file, more)
}

fn prepare_hold(state: &mut State, writer: u32) -> Result<(), AllocError>
    ensures same { (w : World) → ShowsWorld state.old w → ShowsWorld state.new w }
    ensures hold { OnOk result (has_writer state.new.holds.items writer ≡ true) }
{
    make_hold(&mut state.holds, writer)
}

fn prepare_draw(alloc: Global, state: &mut State, path: &Path) -> Result<(), AllocError>
    requires { IsTree state.old.tree }
    ensures same { (w : World) → ShowsWorld state.old w → ShowsWorld state.new w }
    ensures draw { OnOk result (CanDraw state.new path.now) }
{
    let identity = state.files.len() as u64;
    make_put(alloc, &mut state.tree, path, Thing::File(identity))?;
    state.files.reserve(1)
}

fn prepare_directory(alloc: Global, state: &mut State, path: &Path) -> Result<(), AllocError>
    requires { IsTree state.old.tree }
    ensures same { (w : World) → ShowsWorld state.old w → ShowsWorld state.new w }
    ensures ready { OnOk result (CanChange state.new.tree (Puts path.now thing.Directory)) }
{
    make_put(alloc, &mut state.tree, path, Thing::Directory)
}

fn prepare_move(alloc: Global, state: &mut State, from: &Path, to: &Path) -> Result<(), AllocError>
    requires { IsTree state.old.tree }
    ensures same { (w : World) → ShowsWorld state.old w → ShowsWorld state.new w }
    ensures ready { OnOk result (CanChange state.new.tree (Moves from.now to.now)) }
{
    make_move(alloc, &mut state.tree, from, to)
}

fn prepare_drop(alloc: Global, state: &mut State, path: &Path) -> Result<(), AllocError>
    requires { IsTree state.old.tree }
    ensures same { (w : World) → ShowsWorld state.old w → ShowsWorld state.new w }
    ensures ready { OnOk result (CanChange state.new.tree (Drops path.now)) }
{
    make_drop(alloc, &mut state.tree, path)
}
