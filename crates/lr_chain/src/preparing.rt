// What makes a rotation ready.
ghost use Rattle.std.specs.Prelude.{◌≡◌, ◌≤◌, [], true, OnOk, IfOk, IfErr};
ghost use Rattle.lr_rules.specs.Limits.{is_format, or_none, IsCount};
ghost use Rattle.lr_family.specs.Places.{AreNamed};
ghost use Rattle.lr_chain.specs.Hindrances.{what_hinders, IsHindered};
ghost use Rattle.lr_chain.specs.Prepared.{ready_of};

use crate::dated::prepare_dated;
use crate::keeping::Kept;
use crate::numbered::prepare_numbered;
use crate::ready::{PrepareStop, Ready};
use crate::refusals::no_dir;
use lr_family::{Family, Stand};
use lr_rules::{Clock, Count, Make};
use std::alloc::Global;

/// Makes one rotation of the log ready, with all its paths, where the members stand so, with the log made anew behind it or
/// not. `count` is the manual page's `rotate`, `maxage` its `maxage`: in days of 86,400 seconds before the clock's moment,
/// which is in seconds since 1970, as the members' moments are; any number will do. A member that was modified more than so
/// many days before goes, one that is just so old stays, and the log isn't tested for its age.
///
/// Of a numbered family the log goes to the first place and each member to the next. Of a dated one (`dateext`) no member
/// moves: the log gets the stamp that the clock gives, and where the format has serial numbers the one that comes next at it.
///
/// `NoDir` comes where the family's directory isn't there. `TooHigh` comes where all members are kept and one of them has the
/// highest number that there is, whether it would go or not; of dates where a member of that stamp has the greatest serial
/// number that there is. `Taken` comes where the names have no serial numbers and a member has that stamp. Each of them comes
/// only so, and with the path of what stands in the way; `Memory` may come at any time.
pub fn prepare(
    alloc: Global,
    family: &Family,
    stand: &Stand,
    count: Count,
    maxage: Option<u32>,
    clock: &Clock,
    anew: Make,
) -> Result<Ready, PrepareStop>
    requires start { family.now.naming.start ≤ 999999 }
    requires count { IsCount count }
    requires format { or_none is_format family.now.naming.dated ≡ true }
    requires named { AreNamed family.now.naming stand.now.members }
    ensures ready { IfOk result (λ ready. ready ≡ ready_of family.now.log family.now.naming count maxage clock.entry.now anew
        stand.now.members) }
    ensures free { OnOk result (what_hinders family.now.naming count clock.entry.now stand.now ≡ []) }
    ensures hindered { IfErr result (IsHindered (what_hinders family.now.naming count clock.entry.now stand.now)) }
{
    if !stand.there {
        return Err(no_dir(alloc, &family.naming().dir));
    }
    let members = stand.members.as_slice();
    match &family.naming().dated {
        Some(format) => prepare_dated(alloc, family, format, count, maxage, clock, members, anew),
        None => {
            let kept = Kept {
                count,
                maxage,
                now: clock.now.seconds,
            };
            prepare_numbered(alloc, family, kept, members, anew)
        }
    }
}
