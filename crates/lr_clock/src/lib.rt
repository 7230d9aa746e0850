//! The clock of a call, in its zone, over a host.
//!
//! The contract above it: the clock is that of the zone's text at the call's second, as the entries show, or a fault tells
//! why there is none. Begin with `clock_in`:
//!
//! ```text
//! let clock = clock_in(alloc, &mut host, &zone, seconds)?;   // Fault::Zone(ZoneWhy::NotFile): no file of that zone
//! ```
#![tactic(auto)]

mod clock;
mod zone;

pub use clock::{ClockStop, clock_in};
pub use zone::zone_text;
