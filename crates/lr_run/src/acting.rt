// The acts of a run, and the state behind them.
ghost use Rattle.std.specs.Prelude.{◌≡◌, ◌+◌, ◌≤◌, ◌∷◌, [], List, ℕ, drop, map, length, vec_len, OnOk, OnErr};
ghost use Rattle.std.specs.Vec.{vec_capacity};
ghost use Rattle.lr_host.specs.Told.{Left, Onward};
ghost use Rattle.lr_acts.specs.Adding.{HasRoom};
ghost use Rattle.lr_acts.specs.Making.{HasProgram, all_of_sets};
ghost use Rattle.lr_plan.specs.Done.{rotated_logs};
ghost use Rattle.lr_plan.specs.Asking.{CanMake, CanSets};
ghost use Rattle.lr_plan.specs.Steps.{state_steps};
ghost use Rattle.lr_state.specs.After.{stamped};
ghost use Rattle.lr_state.specs.Written.{table_text};
ghost use Rattle.lr_writing.specs.Writes.{AddsCourse};
ghost use Rattle.lr_run.specs.Internal.{ActsAndWrites, CanWrite, SomeActs};

use crate::ready::Ready;
use lr_acts::{Progress, act};
use lr_host::Host;
use lr_plan::Mark;
use lr_rules::{Civil, Listed, Memory, Path};
use lr_state::{State, stamp};
use lr_writing::{Writing, synced, write_state};
use std::alloc::Global;

// Writes down one rotation, where the mark tells of one.
fn stamp_mark(table: &mut State, mark: &Mark, now: Civil)
    ensures { table.new ≡ map (stamped (rotated_logs (mark.now ∷ [])) now) table.old }
{
    match mark {
        Mark::Rotated(log) => stamp(table, log, now),
        Mark::Directory(_) => {}
        Mark::Created(_) => {}
    }
}

// Writes down the rotations of which these marks tell.
fn stamp_all(table: &mut State, marks: &[Mark], now: Civil)
    ensures { table.new ≡ map (stamped (rotated_logs marks.now) now) table.old }
{
    for mark in marks {
        stamp_mark(table, mark, now);
    }
}

// Writes the state behind the syncs of these directories; the logs that these marks tell of have this moment in it.
fn save<H: Host>(
    host: &mut H,
    writing: Writing,
    dirs: Listed<Path>,
    table: State,
    now: Civil,
    before: usize,
    progress: &mut Progress,
)
    requires fits { (text : List ℕ) → CanMake (H.told host.old) (state_steps writing.state writing.stale dirs text) }
    requires within { before ≤ vec_len progress.old.marks }
    requires room { vec_len progress.old.faults + 1 ≤ vec_capacity progress.old.faults }
    ensures told { AddsCourse (state_steps writing.state writing.stale dirs
        (table_text (map (stamped (rotated_logs (drop before progress.old.marks.items)) now) table))) progress.old.faults.items
        progress.new.faults.items (H.told host.old) (H.told host.new) (H.counts host.old) (H.counts host.new) }
    ensures few { vec_len progress.new.faults ≤ vec_len progress.old.faults + 1 }
    ensures room { vec_capacity progress.old.faults ≤ vec_capacity progress.new.faults }
{
    let mut table = table;
    stamp_all(&mut table, &progress.marks.as_slice()[before..], now);
    write_state(host, writing, dirs, &table, &mut progress.faults);
}

/// Carries the steps out, and then writes the state, in which the logs that were rotated have this moment. Only a program
/// takes memory; where there is none for it, nothing more is done, and the state isn't written.
pub fn carry_out<H: Host>(
    alloc: Global,
    host: &mut H,
    ready: Ready,
    now: &Civil,
    progress: &mut Progress,
) -> Result<(), Memory>
    requires fits { CanSets (H.told host.old) ready.steps }
    requires fits_state { CanWrite ready (H.told host.old) }
    requires room { HasRoom (length (all_of_sets ready.steps)) progress.old }
    requires two_more { vec_len progress.old.faults + length (all_of_sets ready.steps) + 2 ≤ vec_capacity progress.old.faults }
    ensures told { OnOk result (ActsAndWrites ready now.now progress.old progress.new (H.told host.old) (H.told host.new)
        (H.counts host.old) (H.counts host.new)) }
    ensures memory { OnErr result (HasProgram (all_of_sets ready.steps)) }
    ensures some { OnErr result (Left (SomeActs ready.steps) (H.told host.old) (H.told host.new)) }
    ensures room { OnOk result (vec_len progress.new.faults + 1 ≤ vec_capacity progress.new.faults) }
    ensures counts { Onward (H.counts host.old) (H.counts host.new) }
{
    let Ready {
        steps,
        directories,
        writing,
        table,
    } = ready;
    let before = progress.marks.as_slice().len();
    act(alloc, host, steps, progress)?;
    let dirs = synced(directories, &progress.marks.as_slice()[before..]);
    save(host, writing, dirs, table, *now, before, progress);
    Ok(())
}
