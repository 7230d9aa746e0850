// The names of dated members.
ghost use Rattle.std.specs.Prelude.{◌≡◌, ◌≢◌, ◌↔◌, ◌++◌, ℤ, pos, ℕ, List, true, MatchOption, IfOk, OnOk};
ghost use Rattle.jiff_core.specs.Calendar.{IsBetween};
ghost use Rattle.lr_rules.specs.Limits.{is_format, or_none};
ghost use Rattle.lr_rules.specs.Path.{joined};
ghost use Rattle.lr_rules.specs.Dated.{serial_text, IsDatedAt};
ghost use Rattle.lr_stamps.specs.Dated.{IsNamedBy, IsDatedBy, MayHaveSerial, clock_seconds};
ghost use Rattle.lr_stamps.specs.Asked.{ArePartsSmall};
ghost use Rattle.lr_stamps.specs.Clocks.{parts_of, moment_by, stamp_of};

use crate::serial::read_stamp;
use crate::writing::push_stamp;
use lr_rules::{Back, Clock, Format, Memory, Moment, Naming, Path, StampParts};
use std::alloc::Global;

/// What stands in the name between the base and the extension.
pub fn between<'a>(base: &[u8], ext: &[u8], name: &'a [u8]) -> Option<&'a [u8]>
    ensures { MatchOption result ((middle : List ℕ) → name.now ≢ base.now ++ middle ++ ext.now)
        (λ middle. name.now ≡ base.now ++ middle.now ++ ext.now) }
{
    let Some(rest) = name.strip_prefix(base) else {
        return None;
    };
    rest.strip_suffix(ext)
}

/// The name of the path in the directory, where it is a path of one.
pub fn name_under<'a>(dir: &Path, path: &'a Path) -> Option<&'a [u8]>
    ensures { MatchOption result ((name : List ℕ) → path.now ≢ joined dir.now name) (λ name. path.now ≡ joined dir.now name.now) }
{
    let dir = dir.bytes();
    if dir.len() == 1 {
        return path.bytes().strip_prefix(b"/");
    }
    match path.bytes().strip_prefix(dir) {
        Some(rest) => rest.strip_prefix(b"/"),
        None => None,
    }
}

/// The seconds of the stamp in the name, and the serial number, where it is a member's of this naming. It takes no memory.
pub fn stamp_in(naming: &Naming, format: &Format, name: &[u8]) -> Option<(i64, u32)>
    requires { is_format format.now ≡ true }
    ensures { (t : ℤ) (k : ℕ) → (result ≡ Some (t, k)) ↔ IsNamedBy naming.now format.now t k name.now }
{
    match between(naming.base.bytes(), naming.ext.bytes(), name) {
        Some(middle) => read_stamp(format, middle),
        None => None,
    }
}

/// The seconds of the stamp of the dated member with this path, and its serial number, 0 where it has none; None exactly
/// where the path is no dated member's. It takes no memory.
pub fn stamp_at(naming: &Naming, path: &Path) -> Option<(i64, u32)>
    requires { or_none is_format naming.now.dated ≡ true }
    ensures { (t : ℤ) (k : ℕ) → (result ≡ Some (t, k)) ↔ IsDatedAt naming.now t k path.now }
{
    let Some(format) = &naming.dated else {
        return None;
    };
    match name_under(&naming.dir, path) {
        Some(name) => stamp_in(naming, format, name),
        None => None,
    }
}

// The parts of a moment.
fn parts_of(moment: &Moment) -> StampParts
    requires { IsBetween (pos 0) (pos 250_000_000_000) moment.now.seconds }
    ensures parts { result ≡ parts_of moment.now }
    ensures small { ArePartsSmall result }
{
    let at = *moment;
    let civil = at.civil;
    StampParts {
        year: civil.year as u64,
        month: u64::from(civil.month),
        day: u64::from(civil.day),
        hour: u64::from(civil.hour),
        minute: u64::from(civil.minute),
        second: u64::from(civil.second),
        epoch: at.seconds as u64,
    }
}

// The moment of which a stamp tells.
fn moment_by(back: Back, clock: &Clock) -> &Moment
    ensures moment { result.now ≡ moment_by back clock.entry.now }
    ensures bound { IsBetween (pos 0) (pos 250_000_000_000) result.now.seconds }
{
    match back {
        Back::Now => &clock.now,
        Back::Yesterday => &clock.yesterday,
        Back::HourAgo => &clock.hour_ago,
    }
}

// Adds the serial number, where there is one.
fn add_serial(alloc: Global, name: &mut Vec<u8>, serial: u32) -> Result<(), Memory>
    ensures { OnOk result (name.new.items ≡ name.old.items ++ serial_text serial) }
{
    if serial == 0 {
        return Ok(());
    }
    let digits = format!(in alloc; ".{serial}")?;
    name.extend_from_slice(digits.as_bytes())?;
    Ok(())
}

// Adds the stamp that the clock gives, and the serial number.
fn add_stamp(
    alloc: Global,
    name: &mut Vec<u8>,
    format: &Format,
    clock: &Clock,
    serial: u32,
) -> Result<(), Memory>
    ensures { OnOk result (name.new.items ≡ name.old.items ++ (stamp_of format.now clock.entry.now ++ serial_text serial)) }
{
    let parts = parts_of(moment_by(format.back, clock));
    push_stamp(alloc, name, format.pieces.as_slice(), &parts)?;
    add_serial(alloc, name, serial)
}

// The name of the member with this stamp.
fn name_of(
    alloc: Global,
    naming: &Naming,
    format: &Format,
    clock: &Clock,
    serial: u32,
) -> Result<Vec<u8>, Memory>
    ensures { IfOk result (λ name. name.items ≡ naming.now.base ++ (stamp_of format.now clock.entry.now ++ serial_text serial)
        ++ naming.now.ext) }
{
    let mut name = Vec::new(alloc);
    name.extend_from_slice(naming.base.bytes())?;
    add_stamp(alloc, &mut name, format, clock, serial)?;
    name.extend_from_slice(naming.ext.bytes())?;
    Ok(name)
}

/// The path of the dated member whose stamp this clock gives, with this serial number, 0 for none.
pub fn dated_path(
    alloc: Global,
    naming: &Naming,
    clock: &Clock,
    serial: u32,
) -> Result<Path, Memory>
    requires format { or_none is_format naming.now.dated ≡ true }
    requires serial { MayHaveSerial naming.now.dated serial }
    ensures path { IfOk result (λ path. IsDatedBy naming.now clock.entry.now serial path) }
    ensures member { IfOk result (λ path. IsDatedAt naming.now (clock_seconds naming.now.dated clock.entry.now) serial path) }
{
    let Some(format) = &naming.dated else {
        unreachable!()
    };
    let name = name_of(alloc, naming, format, clock, serial)?;
    match naming.dir.join(alloc, &name) {
        Ok(path) => Ok(path),
        // A family's directory, base and extension are short enough that its names are paths, so this is want of memory.
        Err(_) => Err(Memory),
    }
}
