// The room that acts need.
ghost use Rattle.std.specs.Prelude.{◌≡◌, ◌+◌, ◌≤◌, length, vec_len, OnOk, IfOk};
ghost use Rattle.std.specs.Vec.{vec_capacity};
ghost use Rattle.lr_acts.specs.Adding.{HasRoom};
ghost use Rattle.lr_acts.specs.Making.{all_of_each, all_of_set, all_of_sets};

use crate::progress::Progress;
use lr_plan::{SetSteps, Step};
use lr_rules::{Listed, Memory};

fn sum(a: usize, b: usize) -> Result<usize, Memory>
    ensures { IfOk result (λ n. n ≡ a + b) }
{
    match a.checked_add(b) {
        Some(sum) => Ok(sum),
        None => Err(Memory),
    }
}

fn count_each(each: &[Listed<Step>]) -> Result<usize, Memory>
    ensures { IfOk result (λ n. n ≡ length (all_of_each each.now)) }
{
    let mut count = 0;
    for steps in each {
        count = sum(count, steps.len())?;
    }
    Ok(count)
}

// How many steps a definition has.
fn count_set(set: &SetSteps) -> Result<usize, Memory>
    ensures { IfOk result (λ n. n ≡ length (all_of_set set.now)) }
{
    let each = count_each(set.each.as_slice())?;
    let behind = sum(each, set.last.len())?;
    sum(set.first.len(), behind)
}

fn count_all(sets: &[SetSteps]) -> Result<usize, Memory>
    ensures { IfOk result (λ n. n ≡ length (all_of_sets sets.now)) }
{
    let mut count = 0;
    for set in sets {
        count = sum(count, count_set(set)?)?;
    }
    Ok(count)
}

/// Takes the room that the acts of these definitions need in any case, for a mark and a fault of each step, and that of
/// two faults more, which may be added behind them: one of the state's writing, and one of the output; and a buffer of
/// 65,536 bytes. What came before stays.
pub fn take_room(progress: &mut Progress, sets: &[SetSteps]) -> Result<(), Memory>
    ensures room { OnOk result (HasRoom (length (all_of_sets sets.now)) progress.new) }
    ensures two_more { OnOk result (vec_len progress.new.faults + length (all_of_sets sets.now) + 2 ≤ vec_capacity
        progress.new.faults) }
    ensures marks { progress.new.marks.items ≡ progress.old.marks.items }
    ensures faults { progress.new.faults.items ≡ progress.old.faults.items }
{
    let count = count_all(sets)?;
    let faults = sum(count, 2)?;
    progress.marks.reserve(count)?;
    progress.faults.reserve(faults)?;
    progress.buffer.resize(65_536, 0)?;
    Ok(())
}
