// The members that a listing names.
ghost use Rattle.std.specs.Prelude.{◌≡◌, bytes_eq, true, IfOk, OnOk};
ghost use Rattle.lr_rules.specs.Limits.{is_format, or_none};
ghost use Rattle.lr_host.specs.Listing.{NamesRise};
ghost use Rattle.lr_family.specs.Spots.{by_path, HasSpots, AreSpots, AddsSpot};

use crate::name::{path_in, place_in};
use crate::place::Place;
use crate::prefix::names_with;
use lr_rules::{Memory, Naming, Path, Text};
use std::alloc::Global;
use std::cmp::Ordering;

/// A member that is to be looked at.
#[derive(Drop)]
pub struct Spot {
    pub path: Path,
    pub place: Place,
}

// Adds the member with this name, where it is one.
fn add_spot(
    alloc: Global,
    spots: &mut Vec<Spot>,
    naming: &Naming,
    name: &Text,
) -> Result<(), Memory>
    requires format { or_none is_format naming.now.dated ≡ true }
    ensures { OnOk result (AddsSpot naming.now name.now spots.old.items spots.new.items) }
{
    if let Some(place) = place_in(naming, name.bytes()) {
        let path = path_in(alloc, &naming.dir, name)?;
        spots.push(Spot { path, place })?;
    }
    Ok(())
}

// The members among the names, in the order of the names.
fn spots_in(alloc: Global, naming: &Naming, names: &[Text]) -> Result<Vec<Spot>, Memory>
    requires format { or_none is_format naming.now.dated ≡ true }
    ensures { IfOk result (λ spots. HasSpots naming.now names.now spots.items) }
{
    let mut spots = Vec::new(alloc);
    for name in names {
        add_spot(alloc, &mut spots, naming, name)?;
    }
    Ok(spots)
}

// The same of names in order of bytes: those that begin as a member's are enough.
fn spots_with(alloc: Global, naming: &Naming, names: &[Text]) -> Result<Vec<Spot>, Memory>
    requires format { or_none is_format naming.now.dated ≡ true }
    requires rising { NamesRise names.now }
    ensures { IfOk result (λ spots. HasSpots naming.now names.now spots.items) }
{
    spots_in(alloc, naming, names_with(names, naming.base.bytes()))
}

fn by_bytes(a: &Spot, b: &Spot) -> Ordering
    ensures { result ≡ by_path a.now b.now }
{
    a.path.bytes().cmp(b.path.bytes())
}

fn are_same(a: &Spot, b: &Spot) -> bool
    ensures { result ≡ bytes_eq a.now.path b.now.path }
{
    a.path.bytes() == b.path.bytes()
}

// The same members, each once, in order of the bytes of their paths.
fn sort_rising(naming: &Naming, names: &[Text], spots: &mut Vec<Spot>)
    requires { HasSpots naming.now names.now spots.old.items }
    ensures { AreSpots naming.now names.now spots.new.items }
{
    spots.sort_unstable_by(|a, b| by_bytes(a, b));
    spots.dedup_by(|a, b| are_same(a, b));
}

/// The members among the names, each once, in order of the bytes of their paths.
pub fn spots_among(alloc: Global, naming: &Naming, names: &[Text]) -> Result<Vec<Spot>, Memory>
    requires format { or_none is_format naming.now.dated ≡ true }
    requires rising { NamesRise names.now }
    ensures { IfOk result (λ spots. AreSpots naming.now names.now spots.items) }
{
    let mut spots = spots_with(alloc, naming, names)?;
    sort_rising(naming, names, &mut spots);
    Ok(spots)
}
