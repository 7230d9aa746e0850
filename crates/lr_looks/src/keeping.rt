// Which of the logs that were found are kept.
ghost use Rattle.std.specs.Prelude.{◌≡◌, ◌++◌, OnOk, IfOk, length, map, Some, ◌∷◌, []};
ghost use Rattle.lr_rules.specs.declared.fault.Fault.TheVariants as fault;
ghost use Rattle.std.specs.List.{flat_map};
ghost use Rattle.lr_looks.specs.Found.{found_in, all_found_in, HaveLogPaths};
ghost use Rattle.lr_looks.specs.Choices.{chosen_names, found_names, is_wild, duplicate, overlap, barred};
ghost use Rattle.lr_looks.specs.Choices.{choice_fault, choice_faults};
ghost use Rattle.lr_looks.specs.Choices.{where_kept, kept_of, kind_fault, where_file, IsChoiceAmong, KeepsLogs};
ghost use Rattle.lr_looks.specs.Internal.{IsWithinCounts, AreWithinCounts};

use crate::found::Found;
use lr_family::Family;
use lr_host::Kind;
use lr_kept::{Choice, choose};
use lr_rules::{Fault, Memory, Path};
use std::alloc::Global;

// The families of logs.
fn families_of<'a>(alloc: Global, found: &'a [Found]) -> Result<Vec<&'a Family>, Memory>
    ensures { IfOk result (λ families. map chosen_names families.items ≡ map found_names (all_found_in found.now)) }
{
    let mut families = Vec::new(alloc);
    for item in found {
        families.push(&item.family)?;
    }
    Ok(families)
}

// Which of the logs a wildcard gave.
fn wild_of(alloc: Global, found: &[Found]) -> Result<Vec<bool>, Memory>
    ensures { IfOk result (λ wild. wild.items ≡ map is_wild (all_found_in found.now)) }
{
    let mut wild = Vec::new(alloc);
    for item in found {
        wild.push(item.wild)?;
    }
    Ok(wild)
}

// The choices among logs.
fn choices_among(alloc: Global, found: &[Found], reserved: &[Path]) -> Result<Vec<Choice>, Memory>
    requires { HaveLogPaths (all_found_in found.now) }
    ensures { IfOk result (λ choices. IsChoiceAmong reserved.now (all_found_in found.now) choices.items) }
{
    let families = families_of(alloc, found)?;
    let wild = wild_of(alloc, found)?;
    choose(alloc, &families, &wild, reserved)
}

// Adds the fault of a log whose path was found before, unless it goes silently.
fn add_duplicate(
    alloc: Global,
    faults: &mut Vec<Fault>,
    item: &Found,
    first: &Found,
) -> Result<(), Memory>
    ensures { OnOk result (faults.new.items ≡ faults.old.items ++ duplicate (found_in item.now) (Some (found_in first.now))) }
{
    if !first.ignore_duplicates {
        let path = item.family.log().copy(alloc)?;
        faults.push(Fault::Duplicate(path))?;
    }
    Ok(())
}

// Adds the fault of a log whose names meet those of another.
fn add_overlap(
    alloc: Global,
    faults: &mut Vec<Fault>,
    item: &Found,
    other: &Found,
) -> Result<(), Memory>
    ensures { OnOk result (faults.new.items ≡ faults.old.items ++ overlap (found_in item.now) (Some (found_in other.now))) }
{
    let path = item.family.log().copy(alloc)?;
    let met = other.family.log().copy(alloc)?;
    faults.push(Fault::Overlap(path, met))?;
    Ok(())
}

// Adds the fault of a log of which a name is reserved.
fn add_barred(
    alloc: Global,
    faults: &mut Vec<Fault>,
    item: &Found,
    path: &Path,
) -> Result<(), Memory>
    ensures { OnOk result (faults.new.items ≡ faults.old.items ++ barred (found_in item.now) (Some path.now)) }
{
    let log = item.family.log().copy(alloc)?;
    let path = path.copy(alloc)?;
    faults.push(Fault::Overlap(log, path))?;
    Ok(())
}

// Adds the fault of a log that isn't kept.
fn add_choice(
    alloc: Global,
    faults: &mut Vec<Fault>,
    found: &[Found],
    reserved: &[Path],
    item: &Found,
    choice: Choice,
) -> Result<(), Memory>
    requires { IsWithinCounts (length reserved.now) (length found.now) choice }
    ensures { OnOk result (faults.new.items ≡ faults.old.items
        ++ choice_fault reserved.now (all_found_in found.now) (found_in item.now) choice) }
{
    match choice {
        Choice::Kept => Ok(()),
        Choice::Again(first) => add_duplicate(alloc, faults, item, &found[first]),
        Choice::MemberOf(_) => Ok(()),
        Choice::Reserved(path) => add_barred(alloc, faults, item, &reserved[path]),
        Choice::Meets(other) => add_overlap(alloc, faults, item, &found[other]),
    }
}

// Adds the faults of the logs that aren't kept.
fn add_choices(
    alloc: Global,
    faults: &mut Vec<Fault>,
    found: &[Found],
    reserved: &[Path],
    choices: &[Choice],
) -> Result<(), Memory>
    requires many { length choices.now ≡ length found.now }
    requires within { AreWithinCounts (length reserved.now) (length found.now) choices.now }
    ensures { OnOk result (faults.new.items ≡ faults.old.items
        ++ choice_faults reserved.now (all_found_in found.now) (all_found_in found.now) choices.now) }
{
    for at in 0..found.len() {
        add_choice(alloc, faults, found, reserved, &found[at], choices[at])?;
    }
    Ok(())
}

fn add_left(left: &mut Vec<Found>, item: Found) -> Result<(), Memory>
    ensures { OnOk result (all_found_in left.new.items ≡ all_found_in left.old.items ++ found_in item ∷ []) }
{
    left.push(item)?;
    Ok(())
}

fn add_wrong_kind(alloc: Global, faults: &mut Vec<Fault>, item: Found) -> Result<(), Memory>
    ensures { OnOk result (faults.new.items ≡ faults.old.items ++ fault.NotFile item.family.log ∷ []) }
{
    let path = item.family.log().copy(alloc);
    drop(item);
    faults.push(Fault::NotFile(path?))?;
    Ok(())
}

// Keeps a log that is a regular file, or adds the fault of one that isn't.
fn add_kept(
    alloc: Global,
    left: &mut Vec<Found>,
    faults: &mut Vec<Fault>,
    item: Found,
) -> Result<(), Memory>
    ensures left { OnOk result (all_found_in left.new.items ≡ all_found_in left.old.items ++ where_file (found_in item)) }
    ensures faults { OnOk result (faults.new.items ≡ faults.old.items ++ kind_fault (found_in item)) }
{
    match item.seen.kind {
        Kind::File => add_left(left, item),
        Kind::Dir => add_wrong_kind(alloc, faults, item),
        Kind::Other => add_wrong_kind(alloc, faults, item),
    }
}

fn add_item(
    alloc: Global,
    left: &mut Vec<Found>,
    faults: &mut Vec<Fault>,
    item: Found,
    choice: Choice,
) -> Result<(), Memory>
    ensures left { OnOk result (all_found_in left.new.items ≡ all_found_in left.old.items
        ++ flat_map where_file (where_kept (found_in item) choice)) }
    ensures faults { OnOk result (faults.new.items ≡ faults.old.items ++ flat_map kind_fault (where_kept (found_in item) choice)) }
{
    match choice {
        Choice::Kept => add_kept(alloc, left, faults, item),
        Choice::Again(_) => Ok(drop(item)),
        Choice::MemberOf(_) => Ok(drop(item)),
        Choice::Reserved(_) => Ok(drop(item)),
        Choice::Meets(_) => Ok(drop(item)),
    }
}

// The logs that are kept and are regular files; adds the faults of the others that are kept.
fn files_of(
    alloc: Global,
    found: Vec<Found>,
    choices: &[Choice],
    faults: &mut Vec<Fault>,
) -> Result<Vec<Found>, Memory>
    requires { length choices.now ≡ length found.items }
    ensures left { IfOk result (λ left. all_found_in left.items
        ≡ flat_map where_file (kept_of (all_found_in found.items) choices.now)) }
    ensures faults { OnOk result (faults.new.items ≡ faults.old.items
        ++ flat_map kind_fault (kept_of (all_found_in found.items) choices.now)) }
{
    let mut left = Vec::new(alloc);
    let mut at = 0;
    for item in found {
        add_item(alloc, &mut left, faults, item, choices[at])?;
        at += 1;
    }
    Ok(left)
}

/// Keeps of the logs that were found those that a run rotates: of each path the first, unless a wildcard gave it and it is
/// that of a member of another, one of its names is reserved, or they meet those of a log that is kept before it, and only
/// regular files. The faults of the others are added:
/// `Duplicate`, `Overlap`, with the reserved path or that of the log kept before, `NotFile`.
pub fn keep(
    alloc: Global,
    found: Vec<Found>,
    reserved: &[Path],
    faults: &mut Vec<Fault>,
) -> Result<Vec<Found>, Memory>
    requires { HaveLogPaths (all_found_in found.items) }
    ensures { IfOk result (λ left. KeepsLogs reserved.now (all_found_in found.items) faults.old.items faults.new.items
        (all_found_in left.items)) }
{
    let choices = choices_among(alloc, &found, reserved)?;
    add_choices(alloc, faults, &found, reserved, &choices)?;
    files_of(alloc, found, &choices, faults)
}
