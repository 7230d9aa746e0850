// What a plan removes, under the present names.
ghost use Rattle.std.specs.Prelude.{◌≡◌, ◌≤◌, ◌<◌, ◌+◌, ◌++◌, ◌^◌, ◌∷◌, [], ℕ, ℤ, List, Option, None, IsSome, take, drop, length};
ghost use Rattle.std.specs.Prelude.{int_lt, reverse, All, IfOk, OnOk};
ghost use Rattle.std.specs.List.{flat_map};
ghost use Rattle.lr_rules.specs.declared.path.Path.{Path};
ghost use Rattle.lr_rules.specs.declared.rule.Count.{Count};
ghost use Rattle.lr_family.specs.declared.place.Place.TheVariants as at;
ghost use Rattle.lr_family.specs.Stands.{key_in};
ghost use Rattle.lr_chain.specs.Rotation.{is_expired};
ghost use Rattle.lr_audited.specs.declared.line.WhyGone.{WhyGone};
ghost use Rattle.lr_audited.specs.Removed.{file_goes, log_going, aside_going, moved_going, dated_going, going_with, newest_going};
ghost use Rattle.lr_audited.specs.Removed.{new_seconds, new_serial, leftovers_of, retired_of, log_removed, set_removed, removed_by};
ghost use Rattle.lr_audited.specs.Removed.{IsStamped, AreStamped};

use crate::line::WhyGone;
use crate::lines::has_no_room;
use lr_family::{Member, Place, key_of, number_at};
use lr_plan::{LogPlan, SetPlan};
use lr_rules::{Clock, Count, Listed, Memory, Path};
use lr_stamps::stamp_at;
use std::alloc::Global;

// What decides on a member: how many are kept, and how old one may be at this second.
#[derive(Clone, Copy)]
struct Bounds {
    count: Count,
    maxage: Option<u32>,
    now: i64,
}

// Whether the member was modified more than `maxage` days before.
fn is_expired(bounds: Bounds, member: &Member) -> bool
    ensures { result ≡ is_expired bounds.maxage bounds.now member.now }
{
    let Some(days) = bounds.maxage else {
        return false;
    };
    let modified = member.seen.mtime;
    // Where so long before this moment is no moment that a file can have, none is older.
    match bounds.now.checked_sub(i64::from(days) * 86_400) {
        Some(oldest) => modified < oldest,
        None => false,
    }
}

fn push_one(
    alloc: Global,
    into: &mut Vec<(Path, WhyGone)>,
    path: &Path,
    why: WhyGone,
) -> Result<(), Memory>
    ensures { OnOk result (into.new.items ≡ into.old.items ++ (path.now, why) ∷ []) }
{
    into.push((path.copy(alloc)?, why))?;
    Ok(())
}

// Adds a file that will have so many later ones, where it goes.
fn add_one(
    alloc: Global,
    into: &mut Vec<(Path, WhyGone)>,
    count: Count,
    later: u64,
    old: bool,
    path: &Path,
) -> Result<(), Memory>
    ensures { OnOk result (into.new.items ≡ into.old.items ++ file_goes count later old path.now) }
{
    if has_no_room(count, later) {
        return push_one(alloc, into, path, WhyGone::Count);
    }
    if old {
        return push_one(alloc, into, path, WhyGone::Age);
    }
    Ok(())
}

// Adds the log, where it goes and isn't copied.
fn add_log(
    alloc: Global,
    into: &mut Vec<(Path, WhyGone)>,
    log: &LogPlan,
    later: u64,
) -> Result<(), Memory>
    ensures { OnOk result (into.new.items ≡ into.old.items ++ log_going log.now.count log.now.job log.now.ready.log later) }
{
    match &log.job {
        Some(_) => Ok(()),
        None => add_one(alloc, into, log.count, later, false, &log.ready.log),
    }
}

// Adds the log, where it is set aside.
fn add_aside(alloc: Global, into: &mut Vec<(Path, WhyGone)>, log: &LogPlan) -> Result<(), Memory>
    ensures { OnOk result (into.new.items ≡ into.old.items ++ aside_going log.now.aside log.now.log) }
{
    match &log.aside {
        Some(_) => push_one(alloc, into, &log.log, WhyGone::Count),
        None => Ok(()),
    }
}

// ---- numbered members

// Adds a member that moves one place on, where it goes then.
fn add_moved(
    alloc: Global,
    into: &mut Vec<(Path, WhyGone)>,
    bounds: Bounds,
    member: &Member,
) -> Result<(), Memory>
    ensures { OnOk result (into.new.items ≡ into.old.items ++ moved_going bounds.count bounds.maxage bounds.now member.now) }
{
    let place = u64::from(number_at(member.place));
    if has_no_room(bounds.count, place) {
        return Ok(());
    }
    let old = is_expired(bounds, member);
    add_one(alloc, into, bounds.count, place + 1, old, &member.path)
}

fn add_all_moved(
    alloc: Global,
    into: &mut Vec<(Path, WhyGone)>,
    bounds: Bounds,
    members: &[Member],
) -> Result<(), Memory>
    ensures { OnOk result (into.new.items ≡ into.old.items ++ flat_map
        (moved_going bounds.count bounds.maxage bounds.now) members.now) }
{
    for member in members {
        add_moved(alloc, into, bounds, member)?;
    }
    Ok(())
}

// ---- dated members

// Adds those of these members that go, of which the first will have so many later ones.
fn add_dated(
    alloc: Global,
    into: &mut Vec<(Path, WhyGone)>,
    bounds: Bounds,
    first: usize,
    members: &[Member],
) -> Result<(), Memory>
    requires { first + length members.now < 2 ^ 64 }
    ensures { OnOk result (into.new.items ≡ into.old.items ++ dated_going bounds.count bounds.maxage bounds.now first members.now) }
{
    let mut later = first;
    for member in members {
        let old = is_expired(bounds, member);
        add_one(alloc, into, bounds.count, later as u64, old, &member.path)?;
        later += 1;
    }
    Ok(())
}

fn is_later(place: Place, other: Place) -> bool
    ensures { result ≡ int_lt (key_in other) (key_in place) }
{
    key_of(&other) < key_of(&place)
}

// How many of the members, the newest first, are later than this place, before the first that isn't.
fn later_than(members: &[Member], place: Place) -> usize
    ensures bound { result ≤ length members.now }
    ensures parts { (c : Count) (maxage : Option ℕ) (now : ℤ) (log : ℕ → List (Path × WhyGone))
        → going_with c maxage now (key_in place) log 0 members.now ≡ dated_going c maxage now 0 (take result members.now) ++
        (log result ++ dated_going c maxage now (result + 1) (drop result members.now)) }
{
    let mut later = 0;
    for member in members {
        if !is_later(member.place, place) {
            return later;
        }
        later += 1;
    }
    later
}

// Adds those of the members, and the log, that go, once the log has this place among them.
fn add_with_log(
    alloc: Global,
    into: &mut Vec<(Path, WhyGone)>,
    bounds: Bounds,
    log: &LogPlan,
    members: &[Member],
    place: Place,
) -> Result<(), Memory>
    ensures { OnOk result (into.new.items ≡ into.old.items ++ going_with bounds.count bounds.maxage bounds.now (key_in place)
        (log_going log.now.count log.now.job log.now.ready.log) 0 members.now) }
{
    let later = later_than(members, place);
    add_dated(alloc, into, bounds, 0, &members[..later])?;
    add_log(alloc, into, log, later as u64)?;
    add_dated(alloc, into, bounds, later + 1, &members[later..])?;
    Ok(())
}

// ---- one log

fn bounds_of(clock: &Clock, log: &LogPlan) -> Bounds
    ensures count { result.count ≡ log.now.count }
    ensures maxage { result.maxage ≡ log.now.maxage }
    ensures now { result.now ≡ clock.entry.now.now.seconds }
{
    Bounds {
        count: log.count,
        maxage: log.maxage,
        now: clock.now.seconds,
    }
}

// The stamp and the serial number of the log's new name.
#[tactic(auto, using(crate::proofs::Going::stamp_is))]
fn stamp_of(clock: &Clock, log: &LogPlan) -> (i64, u32)
    requires stamped { IsStamped clock.now log.now }
    requires dated { IsSome log.now.naming.dated }
    ensures seconds { result.0 ≡ new_seconds clock.entry.now log.now }
    ensures serial { result.1 ≡ new_serial clock.entry.now log.now }
{
    let _ = clock;
    stamp_at(&log.naming, &log.ready.target).unwrap()
}

// Adds those that go of a log with numbered members, the newest first.
fn add_numbered(
    alloc: Global,
    into: &mut Vec<(Path, WhyGone)>,
    clock: &Clock,
    log: &LogPlan,
) -> Result<(), Memory>
    ensures { OnOk result (into.new.items ≡ into.old.items ++ newest_going None clock.entry.now log.now) }
{
    let bounds = bounds_of(clock, log);
    add_log(alloc, into, log, 0)?;
    add_all_moved(alloc, into, bounds, log.stand.members.as_slice())
}

// The place of a stamp and a serial number.
fn stamp_place(stamp: (i64, u32)) -> Place
    ensures { result ≡ at.Stamp stamp.0 stamp.1 }
{
    Place::Stamp(stamp.0, stamp.1)
}

// Adds those that go of a log with dated members, the newest first.
fn add_stamped(
    alloc: Global,
    into: &mut Vec<(Path, WhyGone)>,
    clock: &Clock,
    log: &LogPlan,
) -> Result<(), Memory>
    requires stamped { IsStamped clock.now log.now }
    requires dated { IsSome log.now.naming.dated }
    ensures { OnOk result (into.new.items ≡ into.old.items ++ newest_going log.now.naming.dated clock.entry.now log.now) }
{
    let bounds = bounds_of(clock, log);
    let place = stamp_place(stamp_of(clock, log));
    let members = log.stand.members.as_slice();
    add_with_log(alloc, into, bounds, log, members, place)?;
    Ok(())
}

// Adds those that go of a log, the newest first.
fn add_newest(
    alloc: Global,
    into: &mut Vec<(Path, WhyGone)>,
    clock: &Clock,
    log: &LogPlan,
) -> Result<(), Memory>
    requires { IsStamped clock.now log.now }
    ensures { OnOk result (into.new.items ≡ into.old.items ++ newest_going log.now.naming.dated clock.entry.now log.now) }
{
    match &log.naming.dated {
        Some(_) => add_stamped(alloc, into, clock, log),
        None => add_numbered(alloc, into, clock, log),
    }
}

// Adds all of these.
fn add_all(into: &mut Vec<(Path, WhyGone)>, more: Vec<(Path, WhyGone)>) -> Result<(), Memory>
    ensures { OnOk result (into.new.items ≡ into.old.items ++ more.items) }
{
    for one in more {
        into.push(one)?;
    }
    Ok(())
}

// Adds those that go of a log, the oldest first.
fn add_oldest(
    alloc: Global,
    into: &mut Vec<(Path, WhyGone)>,
    clock: &Clock,
    log: &LogPlan,
) -> Result<(), Memory>
    requires { IsStamped clock.now log.now }
    ensures { OnOk result (into.new.items ≡ into.old.items ++ reverse
        (newest_going log.now.naming.dated clock.entry.now log.now)) }
{
    let mut list = Vec::new(alloc);
    add_newest(alloc, &mut list, clock, log)?;
    list.reverse();
    add_all(into, list)
}

// Adds what goes behind the rotation: the log where it was set aside, and then the oldest first.
fn add_retired(
    alloc: Global,
    into: &mut Vec<(Path, WhyGone)>,
    clock: &Clock,
    log: &LogPlan,
) -> Result<(), Memory>
    requires { IsStamped clock.now log.now }
    ensures { OnOk result (into.new.items ≡ into.old.items ++ retired_of clock.entry.now log.now) }
{
    add_aside(alloc, into, log)?;
    add_oldest(alloc, into, clock, log)
}

// Adds what is left over.
fn add_leftovers(
    alloc: Global,
    into: &mut Vec<(Path, WhyGone)>,
    log: &LogPlan,
) -> Result<(), Memory>
    ensures { OnOk result (into.new.items ≡ into.old.items ++ leftovers_of log.now) }
{
    for removal in log.ready.leftovers.as_slice() {
        push_one(alloc, into, &removal.path, WhyGone::Count)?;
    }
    Ok(())
}

fn add_removed(
    alloc: Global,
    into: &mut Vec<(Path, WhyGone)>,
    clock: &Clock,
    log: &LogPlan,
) -> Result<(), Memory>
    requires { IsStamped clock.now log.now }
    ensures { OnOk result (into.new.items ≡ into.old.items ++ log_removed clock.entry.now log.now) }
{
    add_leftovers(alloc, into, log)?;
    add_retired(alloc, into, clock, log)
}

// ---- all

fn add_each(
    alloc: Global,
    into: &mut Vec<(Path, WhyGone)>,
    clock: &Clock,
    logs: &[LogPlan],
) -> Result<(), Memory>
    requires { All (IsStamped clock.now) logs.now }
    ensures { OnOk result (into.new.items ≡ into.old.items ++ flat_map (log_removed clock.entry.now) logs.now) }
{
    for log in logs {
        add_removed(alloc, into, clock, log)?;
    }
    Ok(())
}

fn add_all_leftovers(
    alloc: Global,
    into: &mut Vec<(Path, WhyGone)>,
    logs: &[LogPlan],
) -> Result<(), Memory>
    ensures { OnOk result (into.new.items ≡ into.old.items ++ flat_map leftovers_of logs.now) }
{
    for log in logs {
        add_leftovers(alloc, into, log)?;
    }
    Ok(())
}

fn add_all_retired(
    alloc: Global,
    into: &mut Vec<(Path, WhyGone)>,
    clock: &Clock,
    logs: &[LogPlan],
) -> Result<(), Memory>
    requires { All (IsStamped clock.now) logs.now }
    ensures { OnOk result (into.new.items ≡ into.old.items ++ flat_map (retired_of clock.entry.now) logs.now) }
{
    for log in logs {
        add_retired(alloc, into, clock, log)?;
    }
    Ok(())
}

fn add_set(
    alloc: Global,
    into: &mut Vec<(Path, WhyGone)>,
    clock: &Clock,
    set: &SetPlan,
) -> Result<(), Memory>
    requires { All (IsStamped clock.now) set.now.logs }
    ensures { OnOk result (into.new.items ≡ into.old.items ++ set_removed clock.entry.now set.now) }
{
    let logs = set.logs.as_slice();
    if !set.shared {
        return add_each(alloc, into, clock, logs);
    }
    add_all_leftovers(alloc, into, logs)?;
    add_all_retired(alloc, into, clock, logs)?;
    Ok(())
}

/// What a run that makes this plan removes of logs and members, in its order.
pub fn removed_by(
    alloc: Global,
    clock: &Clock,
    sets: &[SetPlan],
) -> Result<Listed<(Path, WhyGone)>, Memory>
    requires { AreStamped clock.now sets.now }
    ensures { IfOk result (λ list. list ≡ removed_by clock.entry.now sets.now) }
{
    let mut list = Vec::new(alloc);
    for set in sets {
        add_set(alloc, &mut list, clock, set)?;
    }
    Ok(Listed::from_vec(list))
}
