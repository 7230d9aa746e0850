// The names of a disk in memory: what each path names, what the disk holds for certain, and the changes between.
ghost use Rattle.std.specs.Prelude.{◌≡◌, true, List, ℕ, OnOk};
ghost use Rattle.lr_host.specs.World.{Change, Puts, Moves, Drops};
ghost use Rattle.lr_disk.specs.Names.{has_path};
ghost use Rattle.lr_disk.specs.Tree.{IsTree, IsSameTree, TreeHasRoom, CanChange, IsChanged, IsSynced, IsTreeLeft};

use crate::names::{make_name, take_over};
use crate::pending::Pending;
use crate::replay::{keep, replay, replay_all};
use crate::sync::{part, put_back};
use lr_host::Thing;
use lr_rules::Path;
use std::alloc::{AllocError, Global};
use std::mem::replace;

#[derive(Drop)]
pub struct Tree {
    pub names: Vec<(Path, Thing)>,
    /// What the disk holds for certain. Each path of a pending change has its pair here and in `names`.
    pub durable: Vec<(Path, Thing)>,
    /// The pending changes, the oldest first.
    pub changes: Vec<Pending>,
    /// The change that was made ready, and whose entry comes next.
    pub spare: Option<Pending>,
    /// These hold nothing between calls. Each has room for all changes, so that a sync needs no memory.
    pub bound: Vec<Pending>,
    pub rest: Vec<Pending>,
}

// Makes room for one change more, and for its sync. Nothing changes.
fn make_places(tree: &mut Tree) -> Result<(), AllocError>
    requires { IsTree tree.old }
    ensures same { IsSameTree tree.old tree.new }
    ensures place { OnOk result (TreeHasRoom tree.new) }
{
    tree.changes.reserve(1)?;
    let count = tree.changes.len() + 1;
    tree.bound.reserve(count)?;
    tree.rest.reserve(count)
}

// Makes sure that the path has its pairs. Nothing changes.
fn make_path(alloc: Global, tree: &mut Tree, path: &Path) -> Result<(), AllocError>
    requires { IsTree tree.old }
    ensures same { IsSameTree tree.old tree.new }
    ensures named { OnOk result (has_path tree.new.names.items path.now ≡ true) }
    ensures durable { OnOk result (has_path tree.new.durable.items path.now ≡ true) }
    ensures others { (x : List ℕ) → has_path tree.old.names.items x ≡ true → has_path tree.new.names.items x ≡ true }
    ensures durable_others { (x : List ℕ) → has_path tree.old.durable.items x ≡ true → has_path tree.new.durable.items x ≡ true }
    ensures place { TreeHasRoom tree.old → TreeHasRoom tree.new }
{
    make_name(alloc, &mut tree.names, path)?;
    make_name(alloc, &mut tree.durable, path)
}

// Makes room for a change of these two paths. Nothing changes.
fn make_room(alloc: Global, tree: &mut Tree, from: &Path, to: &Path) -> Result<(), AllocError>
    requires { IsTree tree.old }
    ensures same { IsSameTree tree.old tree.new }
    ensures place { OnOk result (TreeHasRoom tree.new) }
    ensures named { OnOk result ((has_path tree.new.names.items from.now ≡ true) × (has_path tree.new.names.items to.now ≡ true)) }
    ensures durable { OnOk result ((has_path tree.new.durable.items from.now ≡ true)
        × (has_path tree.new.durable.items to.now ≡ true)) }
{
    make_places(tree)?;
    make_path(alloc, tree, from)?;
    make_path(alloc, tree, to)
}

/// Makes ready that the path names this. Nothing changes.
pub fn make_put(alloc: Global, tree: &mut Tree, path: &Path, thing: Thing) -> Result<(), AllocError>
    requires { IsTree tree.old }
    ensures same { IsSameTree tree.old tree.new }
    ensures ready { OnOk result (CanChange tree.new (Puts path.now thing)) }
{
    make_room(alloc, tree, path, path)?;
    tree.spare = Some(Pending::Puts(path.copy(alloc)?, thing));
    Ok(())
}

/// Makes ready that a file gets another path. Nothing changes.
pub fn make_move(alloc: Global, tree: &mut Tree, from: &Path, to: &Path) -> Result<(), AllocError>
    requires { IsTree tree.old }
    ensures same { IsSameTree tree.old tree.new }
    ensures ready { OnOk result (CanChange tree.new (Moves from.now to.now)) }
{
    make_room(alloc, tree, from, to)?;
    tree.spare = Some(Pending::Moves(from.copy(alloc)?, to.copy(alloc)?));
    Ok(())
}

/// Makes ready that the path names nothing. Nothing changes.
pub fn make_drop(alloc: Global, tree: &mut Tree, path: &Path) -> Result<(), AllocError>
    requires { IsTree tree.old }
    ensures same { IsSameTree tree.old tree.new }
    ensures ready { OnOk result (CanChange tree.new (Drops path.now)) }
{
    make_room(alloc, tree, path, path)?;
    tree.spare = Some(Pending::Drops(path.copy(alloc)?));
    Ok(())
}

/// Does the change that was made ready.
pub fn change(tree: &mut Tree)
    requires tree { IsTree tree.old }
    requires ready { (c : Change) × CanChange tree.old c }
    ensures { (c : Change) → CanChange tree.old c → IsChanged c tree.old tree.new }
{
    if let Some(change) = replace(&mut tree.spare, None) {
        replay(&mut tree.names, &change);
        tree.changes.push(change).unwrap();
    }
}

/// Syncs a directory.
pub fn sync_names(tree: &mut Tree, dir: &Path)
    requires { IsTree tree.old }
    ensures { IsSynced dir.now tree.old tree.new }
{
    part(dir, &mut tree.changes, &mut tree.bound, &mut tree.rest);
    replay_all(&mut tree.durable, &mut tree.bound);
    put_back(&mut tree.changes, &mut tree.rest);
}

/// The machine stops: of the changes those at these places stay.
pub fn cut_names(tree: &mut Tree, kept: &[usize])
    requires { IsTree tree.old }
    ensures { IsTreeLeft kept.now tree.old tree.new }
{
    keep(&mut tree.durable, &tree.changes, kept);
    tree.changes.clear();
    take_over(&mut tree.names, &tree.durable);
}
