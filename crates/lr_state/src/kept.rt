// The table of a run before its logs are rotated.
ghost use Rattle.std.specs.Prelude.{◌≡◌, ℕ, List, [], ◌∷◌, is_some, IfOk, OnOk};
ghost use Rattle.lr_state.specs.Table.{moment_of};
ghost use Rattle.lr_state.specs.After.{after, is_among, with_new};

use crate::state::State;
use lr_rules::{Civil, Memory, Path};
use std::alloc::Global;

// The names of these logs, as the names of a table.
fn names_of(alloc: Global, logs: &[Path], now: &Civil) -> Result<State, Memory>
    ensures { IfOk result (λ names. (name : List ℕ) → is_some (moment_of names name) ≡ is_among logs.now name) }
{
    let mut names = State::new(alloc);
    for log in logs {
        names.set(log.bytes(), *now)?;
    }
    Ok(names)
}

// Adds now for the log, where the table lacks it.
fn add_new(table: &mut State, log: &Path, now: &Civil) -> Result<(), Memory>
    ensures { OnOk result (table.new ≡ with_new (log.now ∷ []) now.now table.old) }
{
    if table.get(log.bytes()).is_some() {
        return Ok(());
    }
    table.set(log.bytes(), *now)
}

// Adds now for each of the logs that the table lacks.
fn add_all_new(table: &mut State, logs: &[Path], now: &Civil) -> Result<(), Memory>
    ensures { OnOk result (table.new ≡ with_new logs.now now.now table.old) }
{
    for log in logs {
        add_new(table, log, now)?;
    }
    Ok(())
}

/// Makes the table of a run that kept these logs, before any of them is rotated: leaves out what is more than 366 times
/// 86,400 civil seconds before now and of none of them, and adds each of them that has no entry yet, with now. After want
/// of memory the table is open.
pub fn bring_up(alloc: Global, table: &mut State, kept: &[Path], now: &Civil) -> Result<(), Memory>
    ensures { OnOk result (table.new ≡ after table.old [] kept.now now.now) }
{
    let names = names_of(alloc, kept, now)?;
    table.purge(|name: &[u8]| -> bool { names.get(name).is_some() }, now);
    add_all_new(table, kept, now)
}
