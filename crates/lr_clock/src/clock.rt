// The clock of a call, in its zone.
ghost use Rattle.std.specs.Prelude.{◌≡◌, ◌↔◌, [], ◌∷◌, Err, IfOk, IfErr, IsTrue};
ghost use Rattle.lr_rules.specs.declared.fault.Fault.{Fault};
ghost use Rattle.lr_rules.specs.declared.fault.Fault.TheVariants as fault;
ghost use Rattle.lr_rules.specs.declared.fault.ZoneWhy.TheVariants as why;
ghost use Rattle.lr_host.specs.Told.{Left, Onward};
ghost use Rattle.lr_due.specs.Zone.{IsInRange, IsRefusedZone, IsTable, IsClockIn};
ghost use Rattle.lr_clock.specs.declared.clock.ClockStop.TheVariants as stop;
ghost use Rattle.lr_report.specs.Reported.{AreReported};
ghost use Rattle.lr_clock.specs.Clock.{ShowsClock, ClockStopped, HasClock, IsClockFault};

use crate::zone::zone_text;
use lr_due::{Zone, ZoneStop, ZoneText, clock_of};
use lr_host::Host;
use lr_rules::{Clock, Fault, ZoneWhy};
use std::alloc::Global;

/// Why there is no clock.
#[derive(Drop)]
pub enum ClockStop {
    /// For this cause.
    Fault(Fault),
    Memory,
}

fn is_in_range(seconds: i64) -> bool
    ensures { IsTrue result ↔ IsInRange seconds }
{
    0 <= seconds && seconds <= 250_000_000_000
}

// The clock of a zone's text at a second that clocks show.
fn clock_by(alloc: Global, text: &ZoneText, seconds: i64) -> Result<Clock, ClockStop>
    requires { IsInRange seconds }
    ensures clock { IfOk result (IsClockIn text.now seconds) }
    ensures refused { (f : Fault) → result ≡ Err (stop.Fault f) → (f ≡ fault.Zone why.Refused) × IsRefusedZone text.now }
    ensures refuses { IfOk result (λ clock. ¬ (IsRefusedZone text.now)) }
    ensures memory { result ≡ Err stop.Memory → IsTable text.now }
{
    match clock_of(alloc, text, seconds) {
        Ok(clock) => Ok(clock),
        Err(ZoneStop::Memory) => Err(ClockStop::Memory),
        Err(ZoneStop::Refused) => Err(ClockStop::Fault(Fault::Zone(ZoneWhy::Refused))),
        Err(ZoneStop::Range) => unreachable!(),
    }
}

// The clock in the zone at a second that clocks show.
fn clock_here<H: Host>(
    alloc: Global,
    host: &mut H,
    zone: &Zone,
    seconds: i64,
) -> Result<Clock, ClockStop>
    requires { IsInRange seconds }
    ensures told { IfOk result (λ clock. Left (ShowsClock zone.now seconds clock) (H.told host.old) (H.told host.new)) }
    ensures stopped { IfErr result (λ why. Left (ClockStopped zone.now seconds why) (H.told host.old) (H.told host.new)) }
    ensures clock { IfOk result (HasClock zone.now seconds) }
    ensures fault { (f : Fault) → result ≡ Err (stop.Fault f)
        → IsClockFault zone.now seconds f × AreReported (f ∷ []) (H.counts host.old) (H.counts host.new) }
    ensures counts { Onward (H.counts host.old) (H.counts host.new) }
{
    match zone_text(alloc, host, zone) {
        Ok(text) => clock_by(alloc, &text, seconds),
        Err(stop) => Err(stop),
    }
}

/// The clock in the zone at this many seconds since 1970-01-01 0:0:0 UTC. The seconds are asked first: where they are not
/// from 0 to 250,000,000,000, nothing is called.
pub fn clock_in<H: Host>(
    alloc: Global,
    host: &mut H,
    zone: &Zone,
    seconds: i64,
) -> Result<Clock, ClockStop>
    // What the calls showed, and what it has to do with the answer.
    ensures told { IfOk result (λ clock. Left (ShowsClock zone.now seconds clock) (H.told host.old) (H.told host.new)) }
    ensures stopped { IfErr result (λ why. Left (ClockStopped zone.now seconds why) (H.told host.old) (H.told host.new)) }

    // Also where the host tells nothing.
    ensures clock { IfOk result (HasClock zone.now seconds) }
    ensures fault { (f : Fault) → result ≡ Err (stop.Fault f)
        → IsClockFault zone.now seconds f × AreReported (f ∷ []) (H.counts host.old) (H.counts host.new) }
    ensures counts { Onward (H.counts host.old) (H.counts host.new) }
{
    if !is_in_range(seconds) {
        return Err(ClockStop::Fault(Fault::Clock));
    }
    clock_here(alloc, host, zone, seconds)
}
