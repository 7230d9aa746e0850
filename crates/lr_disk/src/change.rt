// What entries change besides bytes: names, holds, and all of it at once where the machine stops.
ghost use Rattle.std.specs.Prelude.{◌≡◌, true};
ghost use Rattle.lr_rules.specs.declared.path.Path.{Path};
ghost use Rattle.lr_host.specs.declared.entry.Entry.TheVariants as entry;
ghost use Rattle.lr_host.specs.World.{World, effect};
ghost use Rattle.lr_disk.specs.Tree.{IsTree};
ghost use Rattle.lr_disk.specs.State.{ShowsWorld, EntryHasRoom, CanDraw, made_world, has_writer};

use crate::bytes::cut_all;
use crate::file::MemFile;
use crate::holds::set_hold;
use crate::names::thing_at;
use crate::state::State;
use crate::tree::{change, cut_names};
use lr_host::Thing;
use lr_rules::Path;
use std::alloc::Global;

/// Makes an empty file with the next identity, under the path for which that was made ready.
pub fn draw(alloc: Global, state: &mut State, mtime: i64, mode: Option<u32>)
    requires tree { IsTree state.old.tree }
    requires ready { (x : Path) × CanDraw state.old x }
    ensures made { (w : World) (x : Path) → CanDraw state.old x → ShowsWorld state.old w
        → ShowsWorld state.new (made_world w x mtime mode) }
    ensures holds { state.new.holds ≡ state.old.holds }
{
    let file = MemFile {
        bytes: Vec::new(alloc),
        synced: 0,
        mtime,
        mode,
    };
    state.files.push(file).unwrap();
    change(&mut state.tree);
}

/// Lets a writer take hold of what the path names; where it names nothing, a file is made.
pub fn attach(alloc: Global, state: &mut State, writer: u32, path: &Path, at: i64)
    requires tree { IsTree state.old.tree }
    requires ready { EntryHasRoom state.old (entry.Attach writer path.now at) }
    ensures { (w : World) → ShowsWorld state.old w → ShowsWorld state.new (effect w (entry.Attach writer path.now at)) }
{
    match thing_at(&state.tree.names, path.bytes()) {
        Thing::Nothing => {
            let identity = state.files.len() as u64;
            draw(alloc, state, at, None);
            set_hold(&mut state.holds, writer, Some(identity));
        }
        Thing::File(identity) => set_hold(&mut state.holds, writer, Some(identity)),
        _ => set_hold(&mut state.holds, writer, None),
    }
}

/// Lets a writer let its file go.
pub fn detach(state: &mut State, writer: u32)
    requires { has_writer state.old.holds.items writer ≡ true }
    ensures { (w : World) → ShowsWorld state.old w → ShowsWorld state.new (effect w (entry.Detach writer)) }
{
    set_hold(&mut state.holds, writer, None);
}

/// Stops the machine.
pub fn cut(state: &mut State, kept: &[usize], lengths: &[(u64, u64)])
    requires { IsTree state.old.tree }
    ensures { (w : World) → ShowsWorld state.old w → ShowsWorld state.new (effect w (entry.Cut kept.now lengths.now)) }
{
    cut_names(&mut state.tree, kept);
    state.holds.clear();
    cut_all(&mut state.files, lengths);
}
