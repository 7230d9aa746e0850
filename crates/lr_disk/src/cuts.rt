// Which cuts are allowed.
ghost use Rattle.std.specs.Prelude.{◌↔◌, IsTrue, IfOk, length};
ghost use Rattle.lr_host.specs.Below.{NamesBelow};
ghost use Rattle.lr_disk.specs.Tree.{IsTree};
ghost use Rattle.lr_disk.specs.Lengths.{names_left, MayKeep, AreWithin};

use crate::closed::{are_rising, is_closed};
use crate::lengths::are_within;
use crate::names::copy_names;
use crate::pending::Pending;
use crate::replay::keep;
use crate::state::State;
use std::alloc::{AllocError, Global};

/// Whether a cut may keep the changes at these places: they rise, and are a closed set.
pub fn may_keep(changes: &[Pending], kept: &[usize]) -> bool
    ensures { IsTrue result ↔ MayKeep kept.now changes.now }
{
    are_rising(kept, changes.len()) && is_closed(changes, kept)
}

/// Whether a cut that keeps the changes at these places may give the files these lengths.
pub fn may_cut(
    alloc: Global,
    state: &State,
    kept: &[usize],
    lengths: &[(u64, u64)],
) -> Result<bool, AllocError>
    requires tree { IsTree state.now.tree }
    requires below { NamesBelow (length state.now.files.items) (names_left state.now kept.now) }
    ensures { IfOk result (λ yes. IsTrue yes ↔ AreWithin state.now.files.items (names_left state.now kept.now) lengths.now) }
{
    let mut names = copy_names(alloc, &state.tree.durable)?;
    keep(&mut names, &state.tree.changes, kept);
    Ok(are_within(&state.files, &names, lengths))
}
