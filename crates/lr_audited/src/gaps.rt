// The places between members at which none stands.
ghost use Rattle.std.specs.Prelude.{◌≡◌, ◌≤◌, ◌++◌, ◌∷◌, [], ◌+◌, ◌-◌, min, map, take, IfOk, OnOk};
ghost use Rattle.std.specs.List.{flat_map, range_with_len};
ghost use Rattle.lr_family.specs.Stands.{number_in};
ghost use Rattle.lr_audited.specs.Gaps.{places_between, gap_at, log_gaps, gaps_of};

use lr_family::{Member, number_at};
use lr_plan::{LogLook, SetLooks};
use lr_rules::{Listed, Memory, Path};
use std::alloc::Global;

// No more than so many gaps are told of a log.
const MOST: u64 = 1_000;

// How many of so many places from one on stand before another.
fn count_between(from: u64, to: u64, left: u64) -> u64
    ensures { result ≡ min (to - from) left }
{
    to.saturating_sub(from).min(left)
}

// The number of a member's place, counted from 0.
fn place_of(member: &Member) -> u64
    ensures place { result ≡ number_in member.now.place }
    ensures bound { result ≤ 4294967295 }
{
    u64::from(number_at(member.place))
}

fn push_gap(
    alloc: Global,
    gaps: &mut Vec<(Path, u32)>,
    log: &Path,
    place: u32,
) -> Result<(), Memory>
    ensures { OnOk result (gaps.new.items ≡ gaps.old.items ++ gap_at log.now place ∷ []) }
{
    gaps.push((log.copy(alloc)?, place))?;
    Ok(())
}

// Adds so many places from this one on.
fn add_places(
    alloc: Global,
    gaps: &mut Vec<(Path, u32)>,
    log: &Path,
    from: u64,
    count: u64,
) -> Result<(), Memory>
    requires { from + count ≤ 4294967296 }
    ensures { OnOk result (gaps.new.items ≡ gaps.old.items ++ map (gap_at log.now) (range_with_len from count)) }
{
    for at in 0..count {
        push_gap(alloc, gaps, log, (from + at) as u32)?;
    }
    Ok(())
}

// Adds the gaps between these members.
fn add_between(
    alloc: Global,
    gaps: &mut Vec<(Path, u32)>,
    log: &Path,
    members: &[Member],
) -> Result<(), Memory>
    ensures { OnOk result (gaps.new.items ≡ gaps.old.items ++ map (gap_at log.now) (take 1000 (places_between 0 members.now))) }
{
    let mut from = 0;
    let mut left = MOST;
    for member in members {
        let place = place_of(member);
        let count = count_between(from, place, left);
        add_places(alloc, gaps, log, from, count)?;
        left -= count;
        from = place + 1;
    }
    Ok(())
}

// Adds the gaps of a log.
fn add_log(alloc: Global, gaps: &mut Vec<(Path, u32)>, look: &LogLook) -> Result<(), Memory>
    ensures { OnOk result (gaps.new.items ≡ gaps.old.items ++ log_gaps look.now) }
{
    match &look.family.naming().dated {
        Some(_) => Ok(()),
        None => add_between(alloc, gaps, &look.path, look.stand.members.as_slice()),
    }
}

fn add_set(alloc: Global, gaps: &mut Vec<(Path, u32)>, looks: &[LogLook]) -> Result<(), Memory>
    ensures { OnOk result (gaps.new.items ≡ gaps.old.items ++ flat_map log_gaps looks.now) }
{
    for look in looks {
        add_log(alloc, gaps, look)?;
    }
    Ok(())
}

/// The gaps of all logs that were looked at whole.
pub fn gaps_of(alloc: Global, sets: &[SetLooks]) -> Result<Listed<(Path, u32)>, Memory>
    ensures { IfOk result (λ gaps. gaps ≡ gaps_of sets.now) }
{
    let mut gaps = Vec::new(alloc);
    for set in sets {
        add_set(alloc, &mut gaps, set.logs.as_slice())?;
    }
    Ok(Listed::from_vec(gaps))
}
