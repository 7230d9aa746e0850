// The state in memory of an opening.
ghost use Rattle.std.specs.Prelude.{◌≡◌, ◌++◌, pos, map, Some, IfOk, OnOk};
ghost use Rattle.lr_host.specs.declared.thing.Thing.TheVariants as thing;
ghost use Rattle.lr_disk.specs.Names.{opening_pairs};
ghost use Rattle.lr_disk.specs.Tree.{IsTreeOpened};
ghost use Rattle.lr_disk.specs.State.{as_open};

use crate::file::MemFile;
use crate::names::copy_names;
use crate::state::State;
use crate::tree::Tree;
use lr_host::{OpenFile, Opening, Thing};
use lr_rules::Path;
use std::alloc::{AllocError, Global};

fn add_files(
    alloc: Global,
    names: &mut Vec<(Path, Thing)>,
    named: &[(Path, u64)],
) -> Result<(), AllocError>
    ensures { OnOk result (names.new.items ≡ names.old.items ++ map (λ n. (n.0, thing.File n.1)) named.now) }
{
    for name in named {
        names.push((name.0.copy(alloc)?, Thing::File(name.1)))?;
    }
    Ok(())
}

fn add_paths(
    alloc: Global,
    names: &mut Vec<(Path, Thing)>,
    paths: &[Path],
    thing: Thing,
) -> Result<(), AllocError>
    ensures { OnOk result (names.new.items ≡ names.old.items ++ map (λ p. (p, thing)) paths.now) }
{
    for path in paths {
        names.push((path.copy(alloc)?, thing))?;
    }
    Ok(())
}

fn copy_files(alloc: Global, opened: &[OpenFile]) -> Result<Vec<MemFile>, AllocError>
    ensures { IfOk result (λ files. map as_open files.items ≡ opened.now) }
{
    let mut files = Vec::new(alloc);
    for file in opened {
        let bytes = file.bytes.as_slice().to_vec(alloc)?;
        files.push(MemFile {
            bytes,
            synced: file.synced,
            mtime: file.mtime,
            mode: file.mode,
        })?;
    }
    Ok(files)
}

fn copy_holds(alloc: Global, held: &[(u32, u64)]) -> Result<Vec<(u32, Option<u64>)>, AllocError>
    ensures { IfOk result (λ holds. holds.items ≡ map (λ h. (h.0, Some h.1)) held.now) }
{
    let mut holds = Vec::new(alloc);
    for hold in held {
        holds.push((hold.0, Some(hold.1)))?;
    }
    Ok(holds)
}

fn open_names(alloc: Global, opening: &Opening) -> Result<Vec<(Path, Thing)>, AllocError>
    ensures { IfOk result (λ names. names.items ≡ opening_pairs opening.now) }
{
    let mut names = Vec::new(alloc);
    add_files(alloc, &mut names, opening.names.as_slice())?;
    add_paths(alloc, &mut names, opening.dirs.as_slice(), Thing::Directory)?;
    add_paths(alloc, &mut names, opening.others.as_slice(), Thing::Other)?;
    Ok(names)
}

// What an opening names is durable, and nothing is pending.
fn open_tree(alloc: Global, opening: &Opening) -> Result<Tree, AllocError>
    ensures { IfOk result (λ tree. IsTreeOpened opening.now tree) }
{
    let names = open_names(alloc, opening)?;
    let durable = copy_names(alloc, &names)?;
    Ok(Tree {
        names,
        durable,
        changes: Vec::new(alloc),
        spare: None,
        bound: Vec::new(alloc),
        rest: Vec::new(alloc),
    })
}

pub fn open(alloc: Global, opening: &Opening) -> Result<State, AllocError>
    ensures tree { IfOk result (λ state. IsTreeOpened opening.now state.tree) }
    ensures files { IfOk result (λ state. map as_open state.files.items ≡ opening.now.files) }
    ensures holds { IfOk result (λ state. state.holds.items ≡ map (λ h. (h.0, Some h.1)) opening.now.holds) }
    ensures now { IfOk result (λ state. state.moment ≡ pos 0) }
{
    let mut state = State {
        tree: open_tree(alloc, opening)?,
        files: Vec::new(alloc),
        holds: Vec::new(alloc),
        moment: 0,
    };
    fill(alloc, &mut state, opening)?;
    Ok(state)
}

// Gives the state the files and holds of an opening.
fn fill(alloc: Global, state: &mut State, opening: &Opening) -> Result<(), AllocError>
    ensures tree { state.new.tree ≡ state.old.tree }
    ensures files { OnOk result (map as_open state.new.files.items ≡ opening.now.files) }
    ensures holds { OnOk result (state.new.holds.items ≡ map (λ h. (h.0, Some h.1)) opening.now.holds) }
    ensures now { state.new.moment ≡ state.old.moment }
{
    state.files = copy_files(alloc, opening.files.as_slice())?;
    state.holds = copy_holds(alloc, opening.holds.as_slice())?;
    Ok(())
}
