// What makes the rotation of a dated family ready.
ghost use Rattle.std.specs.Prelude.{◌≡◌, [], true, Some, IfOk, IfErr, OnOk};
ghost use Rattle.lr_rules.specs.Limits.{is_format, or_none};
ghost use Rattle.lr_stamps.specs.Dated.{clock_seconds};
ghost use Rattle.lr_family.specs.Places.{AreNamed};
ghost use Rattle.lr_chain.specs.DatedReady.{ready_to, dated_ready};
ghost use Rattle.lr_chain.specs.Hindrances.{stamp_hindrances, IsHindered};

use crate::dated_gone::removals_of;
use crate::dated_target::{Target, target_of};
use crate::keeping::Kept;
use crate::ready::{PrepareStop, Ready};
use lr_family::{Family, Member};
use lr_rules::{Clock, Count, Format, Listed, Make, Memory};
use std::alloc::Global;

// The rotation to this name, with all its paths.
fn ready_to(
    alloc: Global,
    family: &Family,
    kept: Kept,
    members: &[Member],
    anew: Make,
    target: Target,
) -> Result<Ready, Memory>
    ensures { IfOk result (λ ready. ready ≡ ready_to family.now.log kept.count kept.maxage kept.now anew target.seconds
        target.serial target.path members.now) }
{
    let log = family.log().copy(alloc)?;
    let retire = removals_of(alloc, kept, members, &target)?;
    Ok(Ready {
        leftovers: Listed::new(alloc),
        dir: None,
        moves: Listed::new(alloc),
        log,
        target: target.path,
        make: anew,
        retire: Listed::from_vec(retire),
    })
}

/// Makes the rotation of a dated family ready, whose directory is there and where these members stand.
pub fn prepare_dated(
    alloc: Global,
    family: &Family,
    format: &Format,
    count: Count,
    maxage: Option<u32>,
    clock: &Clock,
    members: &[Member],
    anew: Make,
) -> Result<Ready, PrepareStop>
    requires dated { family.now.naming.dated ≡ Some format.now }
    requires format { or_none is_format family.now.naming.dated ≡ true }
    requires named { AreNamed family.now.naming members.now }
    ensures ready { IfOk result (λ ready. ready ≡ dated_ready family.now.log family.now.naming count maxage clock.entry.now anew
        members.now) }
    ensures free { OnOk result (stamp_hindrances format.now (clock_seconds family.now.naming.dated clock.entry.now) members.now
        ≡ []) }
    ensures hindered { IfErr result (IsHindered (stamp_hindrances format.now (clock_seconds family.now.naming.dated clock.entry.now)
        members.now)) }
{
    let kept = Kept {
        count,
        maxage,
        now: clock.now.seconds,
    };
    match target_of(alloc, family, format, members, clock) {
        Ok(target) => match ready_to(alloc, family, kept, members, anew, target) {
            Ok(ready) => Ok(ready),
            Err(_) => Err(PrepareStop::Memory),
        },
        Err(stop) => Err(stop),
    }
}
