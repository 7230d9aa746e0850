// What the names of all logs begin with, in order of bytes.
ghost use Rattle.std.specs.Prelude.{◌≡◌, ◌<◌, [], ◌∷◌, ◌++◌, length, IfOk, OnOk};
ghost use Rattle.std.specs.Ordering.{nat_cmp};
ghost use Rattle.std.specs.Cmp.Lexicographic.{slice_cmp};
ghost use Rattle.std.specs.List.Sorted.{IsPermutation};
ghost use Rattle.lr_rules.specs.Names.{aside_path};
ghost use Rattle.lr_rules.specs.Path.{joined};
ghost use Rattle.lr_kept.specs.Fronts.{aside_front, before_field, middle_front, member_front, below, front_at, fronts_at};
ghost use Rattle.lr_kept.specs.Fronts.{AddsFronts, AreInOrder, HaveFronts};

use crate::choice::Choice;
use crate::front::Front;
use crate::settling::is_kept;
use lr_family::Family;
use lr_rules::{Format, Listed, Memory, Naming, Piece};
use std::alloc::Global;
use std::cmp::Ordering;

// Adds what a stamp begins with before its first field.
fn add_before_field(bytes: &mut Vec<u8>, pieces: &[Piece]) -> Result<(), Memory>
    ensures { OnOk result (bytes.new.items ≡ bytes.old.items ++ before_field pieces.now) }
{
    for piece in pieces {
        match *piece {
            Piece::Byte(b) => bytes.push(b)?,
            Piece::Field(_) => return Ok(()),
        }
    }
    Ok(())
}

// Adds what stands behind the base in each member's name.
fn add_middle(bytes: &mut Vec<u8>, dated: &Option<Format>) -> Result<(), Memory>
    ensures { OnOk result (bytes.new.items ≡ bytes.old.items ++ middle_front dated.now) }
{
    match dated {
        Some(format) => add_before_field(bytes, format.pieces.as_slice()),
        None => Ok(bytes.push(b'.')?),
    }
}

// The bytes of a directory up to where its names begin.
fn up_to_names(alloc: Global, dir: &[u8]) -> Result<Vec<u8>, Memory>
    ensures { IfOk result (λ bytes. bytes.items ≡ joined dir.now []) }
{
    let mut bytes = Vec::new(alloc);
    if dir.len() != 1 {
        bytes.extend_from_slice(dir)?;
    }
    bytes.push(b'/')?;
    Ok(bytes)
}

/// What the paths of the members and of their part files begin with.
pub fn front_of_members(alloc: Global, naming: &Naming) -> Result<Vec<u8>, Memory>
    ensures { IfOk result (λ bytes. bytes.items ≡ member_front naming.now) }
{
    let mut bytes = up_to_names(alloc, naming.dir.bytes())?;
    bytes.extend_from_slice(naming.base.bytes())?;
    add_middle(&mut bytes, &naming.dated)?;
    Ok(bytes)
}

/// What the paths of what stands in a directory begin with.
pub fn front_below(alloc: Global, dir: &[u8]) -> Result<Vec<u8>, Memory>
    ensures { IfOk result (λ bytes. bytes.items ≡ below dir.now) }
{
    let mut bytes = dir.to_vec(alloc)?;
    bytes.push(b'/')?;
    Ok(bytes)
}

/// The path where a log of this path waits that is set aside.
pub fn front_aside(alloc: Global, log: &[u8]) -> Result<Vec<u8>, Memory>
    ensures { IfOk result (λ bytes. bytes.items ≡ aside_path log.now) }
{
    let mut bytes = log.to_vec(alloc)?;
    bytes.extend_from_slice(b".tmp")?;
    Ok(bytes)
}

fn add_front(fronts: &mut Vec<Front>, bytes: Vec<u8>, place: usize) -> Result<(), Memory>
    ensures { OnOk result (fronts.new.items ≡ fronts.old.items ++ front_at place bytes.items ∷ []) }
{
    fronts.push(Front {
        bytes: Listed::from_vec(bytes),
        place,
    })?;
    Ok(())
}

// Adds the path where the log waits, where it is set aside.
fn add_aside(
    alloc: Global,
    fronts: &mut Vec<Front>,
    log: &Family,
    place: usize,
) -> Result<(), Memory>
    ensures { OnOk result (fronts.new.items ≡ fronts.old.items ++ aside_front log.now place) }
{
    if !log.naming().aside {
        return Ok(());
    }
    let aside = front_aside(alloc, log.log().bytes())?;
    add_front(fronts, aside, place)
}

// Adds the fronts of a log.
fn add_fronts(
    alloc: Global,
    fronts: &mut Vec<Front>,
    log: &Family,
    place: usize,
) -> Result<(), Memory>
    ensures { OnOk result (fronts.new.items ≡ fronts.old.items ++ fronts_at log.now place) }
{
    let path = log.log().bytes().to_vec(alloc)?;
    add_front(fronts, path, place)?;
    let members = front_of_members(alloc, log.naming())?;
    add_front(fronts, members, place)?;
    let dir = front_below(alloc, log.naming().dir.bytes())?;
    add_front(fronts, dir, place)?;
    add_aside(alloc, fronts, log, place)
}

// Adds the fronts of the log at a place, unless it is left out.
fn add_fronts_at(
    alloc: Global,
    fronts: &mut Vec<Front>,
    logs: &[&Family],
    choices: &[Choice],
    place: usize,
) -> Result<(), Memory>
    requires choices { place < length choices.now }
    requires logs { place < length logs.now }
    ensures { OnOk result (AddsFronts logs.now choices.now place fronts.old.items fronts.new.items) }
{
    if !is_kept(choices, place) {
        return Ok(());
    }
    add_fronts(alloc, fronts, logs[place], place)?;
    Ok(())
}

// The fronts of the logs that aren't left out.
fn all_fronts(alloc: Global, logs: &[&Family], choices: &[Choice]) -> Result<Vec<Front>, Memory>
    requires { length choices.now ≡ length logs.now }
    ensures { IfOk result (λ fronts. HaveFronts logs.now choices.now (length logs.now) fronts.items) }
{
    let mut fronts = Vec::new(alloc);
    for place in 0..logs.len() {
        add_fronts_at(alloc, &mut fronts, logs, choices, place)?;
    }
    Ok(fronts)
}

fn by_bytes(a: &Front, b: &Front) -> Ordering
    ensures { result ≡ slice_cmp nat_cmp a.now.bytes b.now.bytes }
{
    a.bytes.as_slice().cmp(b.bytes.as_slice())
}

fn sort_fronts(fronts: &mut Vec<Front>)
    ensures same { IsPermutation fronts.old.items fronts.new.items }
    ensures order { AreInOrder fronts.new.items }
{
    fronts.sort_unstable_by(|a, b| by_bytes(a, b));
}

/// The fronts of the logs that aren't left out, in order of bytes.
pub fn fronts_of(alloc: Global, logs: &[&Family], choices: &[Choice]) -> Result<Vec<Front>, Memory>
    requires { length choices.now ≡ length logs.now }
    ensures fronts { IfOk result (λ fronts. HaveFronts logs.now choices.now (length logs.now) fronts.items) }
    ensures order { IfOk result (λ fronts. AreInOrder fronts.items) }
{
    let mut fronts = all_fronts(alloc, logs, choices)?;
    sort_fronts(&mut fronts);
    Ok(fronts)
}
