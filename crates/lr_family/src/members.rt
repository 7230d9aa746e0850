// The members among the names of a directory.
ghost use Rattle.std.specs.Prelude.{◌≡◌, true, IfOk, IfErr};
ghost use Rattle.lr_rules.specs.Limits.{is_format, or_none};
ghost use Rattle.lr_host.specs.Listing.{NamesRise};
ghost use Rattle.lr_host.specs.Told.{Left, Onward, Rose};
ghost use Rattle.lr_family.specs.Among.{StandsAmong, ShowsNoneIn};
ghost use Rattle.lr_family.specs.Places.{AreNamed};
ghost use Rattle.lr_family.specs.Stands.{AreNewestFirst, IsFailedStand};

use crate::look::look_at_all;
use crate::newest::sort_newest;
use crate::spot::spots_among;
use crate::stand::{Member, StandStop};
use lr_host::Host;
use lr_rules::{Naming, Text};
use std::alloc::Global;

/// Looks at each member among the names, in order of bytes, and gives those that it saw, the newest first.
pub fn members_among<H: Host>(
    alloc: Global,
    host: &mut H,
    naming: &Naming,
    names: &[Text],
) -> Result<Vec<Member>, StandStop>
    requires format { or_none is_format naming.now.dated ≡ true }
    requires rising { NamesRise names.now }
    ensures told { IfOk result (λ members. Left (StandsAmong naming.now names.now members.items) (H.told host.old)
        (H.told host.new)) }
    ensures stopped { IfErr result (λ stop. Left (ShowsNoneIn naming.now true names.now stop) (H.told host.old) (H.told host.new)) }
    ensures named { IfOk result (λ members. AreNamed naming.now members.items) }
    ensures newest { IfOk result (λ members. AreNewestFirst members.items) }
    ensures cause { IfErr result (λ stop. IsFailedStand stop → Rose (H.counts host.old).faults (H.counts host.new).faults) }
    ensures counts { Onward (H.counts host.old) (H.counts host.new) }
{
    let Ok(spots) = spots_among(alloc, naming, names) else {
        return Err(StandStop::Memory);
    };
    match look_at_all(alloc, host, spots) {
        Ok(mut members) => {
            sort_newest(&mut members);
            Ok(members)
        }
        Err(stop) => Err(stop),
    }
}
