// Which paths were found before.
ghost use Rattle.std.specs.Prelude.{IfOk, OnOk};
ghost use Rattle.lr_kept.specs.Begun.{AddsChoice, AreBegun, IsNoted, place_in};

use crate::choice::Choice;
use indexmap::IndexMap;
use lr_family::Family;
use lr_rules::Memory;
use std::alloc::Global;

// Whether the path was found before, and by which log first; else it is found at this place from now on.
fn note(
    alloc: Global,
    found: &mut IndexMap<Vec<u8>, usize>,
    path: &[u8],
    place: usize,
) -> Result<Choice, Memory>
    ensures { IfOk result (λ choice. IsNoted (place_in found.old.entries) (place_in found.new.entries) path.now place choice) }
{
    if let Some(first) = found.get(path) {
        return Ok(Choice::Again(*first));
    }
    let key = path.to_vec(alloc)?;
    found.insert(key, place)?;
    Ok(Choice::Kept)
}

// What comes of the log with this path so far, behind the choices before it.
fn add_choice(
    alloc: Global,
    found: &mut IndexMap<Vec<u8>, usize>,
    choices: &mut Vec<Choice>,
    path: &[u8],
    place: usize,
) -> Result<(), Memory>
    ensures { OnOk result (AddsChoice (place_in found.old.entries) (place_in found.new.entries) path.now place choices.old.items
        choices.new.items) }
{
    let choice = note(alloc, found, path, place)?;
    choices.push(choice)?;
    Ok(())
}

/// For each log whether its path was found before, and by which log first; else it is kept so far.
pub fn first_choices(alloc: Global, logs: &[&Family]) -> Result<Vec<Choice>, Memory>
    ensures { IfOk result (λ choices. AreBegun logs.now choices.items) }
{
    let mut found = IndexMap::new(alloc);
    let mut choices = Vec::new(alloc);
    for place in 0..logs.len() {
        let path = logs[place].log().bytes();
        add_choice(alloc, &mut found, &mut choices, path, place)?;
    }
    Ok(choices)
}
