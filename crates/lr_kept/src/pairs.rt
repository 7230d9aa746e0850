// The pairs of logs that meet.
ghost use Rattle.std.specs.Prelude.{◌≡◌, ◌≢◌, ◌<◌, ◌↔◌, ℕ, true, false, length, All, IfOk, OnOk};
ghost use Rattle.std.specs.List.Sorted.{IsPermutation};
ghost use Rattle.lr_kept.specs.Chosen.{IsKeptAt, IsNew, MeetAt};
ghost use Rattle.lr_kept.specs.Fronts.{AreInOrder, HaveFronts};
ghost use Rattle.lr_kept.specs.Pairs.{AddsAside, AddsPair, AddsPairs, AddsPairsOf, HaveFound, HavePairs, PairsRise, pair_of};

use crate::choice::Choice;
use crate::front::Front;
use crate::fronts::{front_aside, front_below, front_of_members};
use crate::pair::Pair;
use crate::range::beginning_with;
use crate::settling::is_kept;
use lr_family::{Family, apart};
use lr_rules::Memory;
use std::alloc::Global;

// Whether the logs at two different places meet.
fn meet(logs: &[&Family], one: usize, other: usize) -> bool
    requires one { one < length logs.now }
    requires other { other < length logs.now }
    ensures { (result ≡ true) ↔ ((one ≢ other) × MeetAt logs.now one other) }
{
    if one == other {
        return false;
    }
    !apart(logs[one], logs[other])
}

fn pair_of(one: usize, other: usize) -> Pair
    ensures { result ≡ pair_of one other }
{
    if one < other {
        Pair {
            earlier: one,
            later: other,
        }
    } else {
        Pair {
            earlier: other,
            later: one,
        }
    }
}

// Adds the pair of two places, where their logs meet.
fn add_pair(pairs: &mut Vec<Pair>, logs: &[&Family], one: usize, other: usize) -> Result<(), Memory>
    requires one { one < length logs.now }
    requires other { other < length logs.now }
    ensures { OnOk result (AddsPair logs.now one other pairs.old.items pairs.new.items) }
{
    if meet(logs, one, other) {
        pairs.push(pair_of(one, other))?;
    }
    Ok(())
}

// Adds the pairs of a place with all whose fronts begin with these bytes.
fn add_pairs(
    pairs: &mut Vec<Pair>,
    logs: &[&Family],
    fronts: &[Front],
    place: usize,
    begin: &[u8],
) -> Result<(), Memory>
    requires place { place < length logs.now }
    requires order { AreInOrder fronts.now }
    requires places { All (λ f. f.place < length logs.now) fronts.now }
    ensures { OnOk result (AddsPairs logs.now fronts.now place begin.now pairs.old.items pairs.new.items) }
{
    let (from, to) = beginning_with(fronts, begin);
    for at in from..to {
        add_pair(pairs, logs, place, fronts[at].place)?;
    }
    Ok(())
}

// Adds the pairs of a place with all whose fronts begin with the path where its log waits, where that is set aside.
fn add_aside(
    alloc: Global,
    pairs: &mut Vec<Pair>,
    logs: &[&Family],
    fronts: &[Front],
    place: usize,
) -> Result<(), Memory>
    requires place { place < length logs.now }
    requires order { AreInOrder fronts.now }
    requires places { All (λ f. f.place < length logs.now) fronts.now }
    ensures { OnOk result (AddsAside logs.now fronts.now place pairs.old.items pairs.new.items) }
{
    let log = logs[place];
    if !log.naming().aside {
        return Ok(());
    }
    let aside = front_aside(alloc, log.log().bytes())?;
    add_pairs(pairs, logs, fronts, place, &aside)?;
    Ok(())
}

// Adds the pairs of a place with all that its log finds, unless it is left out.
fn add_found(
    alloc: Global,
    pairs: &mut Vec<Pair>,
    logs: &[&Family],
    choices: &[Choice],
    fronts: &[Front],
    place: usize,
) -> Result<(), Memory>
    requires place { place < length logs.now }
    requires choices { place < length choices.now }
    requires order { AreInOrder fronts.now }
    requires places { All (λ f. f.place < length logs.now) fronts.now }
    ensures { OnOk result (AddsPairsOf logs.now choices.now fronts.now place pairs.old.items pairs.new.items) }
{
    if !is_kept(choices, place) {
        return Ok(());
    }
    let log = logs[place];
    let members = front_of_members(alloc, log.naming())?;
    add_pairs(pairs, logs, fronts, place, &members)?;
    let below = front_below(alloc, log.log().bytes())?;
    add_pairs(pairs, logs, fronts, place, &below)?;
    add_aside(alloc, pairs, logs, fronts, place)?;
    Ok(())
}

// The pairs of all places with all that their logs find.
fn all_found(
    alloc: Global,
    logs: &[&Family],
    choices: &[Choice],
    fronts: &[Front],
) -> Result<Vec<Pair>, Memory>
    requires choices { length choices.now ≡ length logs.now }
    requires order { AreInOrder fronts.now }
    requires places { All (λ f. f.place < length logs.now) fronts.now }
    ensures { IfOk result (λ pairs. HaveFound logs.now choices.now fronts.now (length logs.now) pairs.items) }
{
    let mut pairs = Vec::new(alloc);
    for place in 0..logs.len() {
        add_found(alloc, &mut pairs, logs, choices, fronts, place)?;
    }
    Ok(pairs)
}

/// The pairs of logs that meet, of all that aren't left out.
pub fn pairs_of(
    alloc: Global,
    logs: &[&Family],
    choices: &[Choice],
    fronts: &[Front],
) -> Result<Vec<Pair>, Memory>
    requires choices { length choices.now ≡ length logs.now }
    requires new { (k : ℕ) → IsKeptAt choices.now k → IsNew logs.now k }
    requires order { AreInOrder fronts.now }
    requires fronts { HaveFronts logs.now choices.now (length logs.now) fronts.now }
    ensures { IfOk result (λ pairs. HavePairs logs.now choices.now pairs.items) }
{
    let pairs = all_found(alloc, logs, choices, fronts)?;
    Ok(pairs)
}

/// Sorts the pairs by their earlier places.
pub fn sort_pairs(pairs: &mut Vec<Pair>)
    ensures same { IsPermutation pairs.old.items pairs.new.items }
    ensures rising { PairsRise pairs.new.items }
{
    pairs.sort_unstable_by_key(|pair| pair.earlier);
}
