// What a call is asked for besides its words.
use crate::given::here_given;
use crate::stop::GivenStop;
use crate::zone::zone_given;
use lr_due::Zone;
use lr_rules::Path;
use std::alloc::Global;

/// The directory that it is made from, and the zone of its clock.
#[derive(Drop)]
pub struct Asked {
    pub here: Path,
    pub zone: Zone,
}

/// The working directory, and the zone that TZ asks for, or the machine's own.
pub fn asked_of(rt: &HostRuntime, alloc: Global) -> Result<Asked, GivenStop> {
    let here = here_given(rt, alloc)?;
    let zone = zone_given(rt, alloc)?;
    Ok(Asked { here, zone })
}
