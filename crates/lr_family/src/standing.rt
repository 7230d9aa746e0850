// What stands of a family in a directory that was listed.
ghost use Rattle.std.specs.Prelude.{◌≡◌, true, IfOk, IfErr};
ghost use Rattle.lr_rules.specs.Limits.{is_format, or_none};
ghost use Rattle.lr_host.specs.Told.{Left, Onward, Rose};
ghost use Rattle.lr_family.specs.Among.{ShowsIn, ShowsNoneIn};
ghost use Rattle.lr_family.specs.Places.{AreNamed};
ghost use Rattle.lr_family.specs.Stands.{AreNewestFirst, IsFailedStand};

use crate::listing::Listing;
use crate::members::members_among;
use crate::parts::parts_among;
use crate::stand::{Stand, StandStop};
use lr_host::Host;
use lr_rules::{Listed, Naming};
use std::alloc::Global;

/// Looks at each member that the listing names, and then at each part file of one; in a directory that isn't there none
/// stands.
pub fn stand_among<H: Host>(
    alloc: Global,
    host: &mut H,
    naming: &Naming,
    listing: &Listing,
) -> Result<Stand, StandStop>
    requires format { or_none is_format naming.now.dated ≡ true }
    ensures told { IfOk result (λ stand. Left (ShowsIn naming.now listing.now.there listing.now.parent listing.now.names stand)
        (H.told host.old) (H.told host.new)) }
    ensures stopped { IfErr result (λ stop. Left (ShowsNoneIn naming.now listing.now.there listing.now.names stop) (H.told host.old)
        (H.told host.new)) }
    ensures named { IfOk result (λ stand. AreNamed naming.now stand.members) }
    ensures newest { IfOk result (λ stand. AreNewestFirst stand.members) }
    ensures cause { IfErr result (λ stop. IsFailedStand stop → Rose (H.counts host.old).faults (H.counts host.new).faults) }
    ensures counts { Onward (H.counts host.old) (H.counts host.new) }
{
    let there = listing.there();
    let parent = listing.parent();
    if !there {
        return Ok(Stand {
            there,
            parent,
            members: Listed::new(alloc),
            parts: Listed::new(alloc),
        });
    }
    let members = match members_among(alloc, host, naming, listing.names()) {
        Ok(members) => Listed::from_vec(members),
        Err(stop) => return Err(stop),
    };
    match parts_among(alloc, host, naming, listing.names()) {
        Ok(parts) => Ok(Stand {
            there,
            parent,
            members,
            parts,
        }),
        Err(stop) => Err(stop),
    }
}
