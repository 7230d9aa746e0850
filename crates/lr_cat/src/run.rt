// A call, from its clock on.
ghost use Rattle.std.specs.Prelude.{◌≡◌, ◌≢◌, ◌≤◌, ◌+◌, ◌⊎◌, ◌∷◌, [], true, false, None, All, IfErr, vec_len, vec_capacity};
ghost use Rattle.lr_rules.specs.declared.fault.Fault.TheVariants as fault;
ghost use Rattle.lr_rules.specs.Limits.{is_format, or_none};
ghost use Rattle.lr_host.specs.Counted.{calls_in};
ghost use Rattle.lr_host.specs.Told.{Left, Onward, Rose};
ghost use Rattle.lr_due.specs.Zone.{IsInRange};
ghost use Rattle.lr_include.specs.Readers.{IsConfOrCall, meaning_of};
ghost use Rattle.lr_cat.specs.Came.{CatEnds, ConfsEnd, LogEnds, RulesEnd, clock_fault, report_by};
ghost use Rattle.lr_cat.specs.Cats.{Cats, StopsSo};
ghost use Rattle.lr_cat.specs.Internal.{CameSo, IsNoClock, answer_by};
ghost use Rattle.lr_cat.specs.Says.{HasCounted, HasFault};
ghost use Rattle.lr_cat.specs.Stops.{CameTo, StopCause};
ghost use Rattle.lr_cat.specs.Words.{has_log_lengths};

use crate::calls::no_call_failed;
use crate::gives::family_in;
use crate::locked::{names_of, put_locked};
use crate::outcome::CatOutcome;
use crate::stop::CatStop;
use crate::words::Wanted;
use lr_clock::{ClockStop, clock_in};
use lr_due::Zone;
use lr_family::Family;
use lr_host::{Host, Sink};
use lr_include::{Reading, read_all};
use lr_report::Report;
use lr_rules::{Clock, Fault, Listed, Notice, Rules};
use std::alloc::Global;

// Puts out the log's history, by the family that its definition says. All memory that isn't for what stands is taken first.
fn put_log<H: Host, K: Sink>(
    alloc: Global,
    host: &mut H,
    rules: &Rules,
    wanted: &Wanted,
    clock: &Clock,
    family: &Family,
    out: &mut K,
) -> Result<bool, CatStop>
    requires format { or_none is_format family.now.naming.dated ≡ true }
    requires log { has_log_lengths wanted.now.log ≡ true }
    ensures came { CameTo (λ how texts ts. Cats wanted.now clock.entry.now rules.now family.now.naming how texts ts) result
        (H.told host.old) (H.told host.new) (K.taken out.old) (K.taken out.new) }
    ensures stopped { IfErr result (λ why. Left (StopsSo wanted.now clock.entry.now rules.now why) (H.told host.old)
        (H.told host.new)) }
    ensures cause { IfErr result (λ why. StopCause why (H.counts host.old) (H.counts host.new) (K.faults out.old)
        (K.faults out.new)) }
    ensures counts { Onward (H.counts host.old) (H.counts host.new) }
    ensures puts { K.faults out.old ≤ K.faults out.new }
{
    let Ok(names) = names_of(alloc, wanted, family.naming().aside) else {
        return Err(CatStop::Memory);
    };
    let Ok(mut buffer) = vec![in alloc; 0u8; 65_536] else {
        return Err(CatStop::Memory);
    };
    put_locked(
        alloc,
        host,
        rules,
        wanted,
        clock,
        family,
        names,
        &mut buffer,
        out,
    )
}

// The answer of a call that was carried through, or stopped so. There is room for one fault more.
fn answer_of(notices: Listed<Notice>, faults: Vec<Fault>, done: Result<bool, CatStop>) -> CatOutcome
    requires { vec_len faults + 1 ≤ vec_capacity faults }
    ensures { result ≡ answer_by notices faults.items done }
{
    let mut faults = faults;
    let waits = match done {
        Ok(waits) => waits,
        Err(CatStop::Fault(fault)) => {
            faults.push_reserved(fault);
            false
        }
        Err(CatStop::Held) => return CatOutcome::Held,
        Err(CatStop::Memory) => return CatOutcome::OutOfMemory,
    };
    let faults = Listed::from_vec(faults);
    CatOutcome::Done(Report { notices, faults }, waits)
}

// The call, by the family that the first definition that gives the log says.
fn call_log<H: Host, K: Sink>(
    alloc: Global,
    host: &mut H,
    wanted: &Wanted,
    clock: &Clock,
    rules: &Rules,
    family: &Family,
    notices: Listed<Notice>,
    faults: Listed<Fault>,
    out: &mut K,
) -> CatOutcome
    requires format { or_none is_format family.now.naming.dated ≡ true }
    requires log { has_log_lengths wanted.now.log ≡ true }
    requires whole { calls_in faults ≡ 0 }
    requires only { All IsConfOrCall faults }
    ensures told { CameSo (LogEnds wanted.now clock.entry.now
        (record { rules = rules.now.sets; notices = notices; faults = faults }) rules.now family.now.naming result)
        (H.told host.old) (H.told host.new) (K.taken out.old) (K.taken out.new) }
    ensures counted { HasCounted result (H.counts host.old) (H.counts host.new) }
    ensures out { HasFault result fault.Out → Rose (K.faults out.old) (K.faults out.new) }
    ensures clock { HasFault result fault.Clock → ⊥ }
    ensures words { result ≢ CatOutcome.BadWords }
    ensures counts { Onward (H.counts host.old) (H.counts host.new) }
    ensures puts { K.faults out.old ≤ K.faults out.new }
{
    let mut faults = faults.into_vec();
    let Ok(()) = faults.reserve(1) else {
        return CatOutcome::OutOfMemory;
    };
    let done = put_log(alloc, host, rules, wanted, clock, family, out);
    answer_of(notices, faults, done)
}

// The call, behind a configuration that was read without a failed call.
fn call_rules<H: Host, K: Sink>(
    alloc: Global,
    host: &mut H,
    wanted: &Wanted,
    clock: &Clock,
    reading: Reading,
    out: &mut K,
) -> CatOutcome
    requires log { has_log_lengths wanted.now.log ≡ true }
    requires whole { calls_in reading.faults ≡ 0 }
    requires only { All IsConfOrCall reading.faults }
    ensures told { CameSo (RulesEnd wanted.now clock.entry.now (meaning_of reading) reading.rules result) (H.told host.old)
        (H.told host.new) (K.taken out.old) (K.taken out.new) }
    ensures counted { HasCounted result (H.counts host.old) (H.counts host.new) }
    ensures out { HasFault result fault.Out → Rose (K.faults out.old) (K.faults out.new) }
    ensures clock { HasFault result fault.Clock → ⊥ }
    ensures words { result ≢ CatOutcome.BadWords }
    ensures counts { Onward (H.counts host.old) (H.counts host.new) }
    ensures puts { K.faults out.old ≤ K.faults out.new }
{
    let Reading {
        rules,
        notices,
        faults,
    } = reading;
    match family_in(alloc, &rules, &wanted.log) {
        Ok(Some(family)) => call_log(
            alloc, host, wanted, clock, &rules, &family, notices, faults, out,
        ),
        Ok(None) => CatOutcome::NoLog,
        Err(_) => CatOutcome::OutOfMemory,
    }
}

// The report of a configuration alone.
fn reported(reading: Reading) -> CatOutcome
    ensures { result ≡ CatOutcome.Done (report_by (meaning_of reading) None) false }
{
    let Reading {
        notices,
        faults,
        ..
    } = reading;
    CatOutcome::Done(Report { notices, faults }, false)
}

// The call, by this clock. A call that fails as the configuration is read ends it: what wasn't read may say more of the log.
fn call_confs<H: Host, K: Sink>(
    alloc: Global,
    host: &mut H,
    wanted: &Wanted,
    clock: &Clock,
    out: &mut K,
) -> CatOutcome
    requires log { has_log_lengths wanted.now.log ≡ true }
    ensures told { CameSo (ConfsEnd wanted.now clock.entry.now result) (H.told host.old) (H.told host.new) (K.taken out.old)
        (K.taken out.new) }
    ensures counted { HasCounted result (H.counts host.old) (H.counts host.new) }
    ensures out { HasFault result fault.Out → Rose (K.faults out.old) (K.faults out.new) }
    ensures clock { HasFault result fault.Clock → ⊥ }
    ensures words { result ≢ CatOutcome.BadWords }
    ensures counts { Onward (H.counts host.old) (H.counts host.new) }
    ensures puts { K.faults out.old ≤ K.faults out.new }
{
    let Ok(reading) = read_all(alloc, host, wanted.confs.as_slice()) else {
        return CatOutcome::OutOfMemory;
    };
    if no_call_failed(reading.faults.as_slice()) {
        call_rules(alloc, host, wanted, clock, reading, out)
    } else {
        reported(reading)
    }
}

// The report of this fault alone.
fn alone(alloc: Global, fault: Fault) -> CatOutcome
    ensures { (result ≡ CatOutcome.Done (record { notices = []; faults = fault ∷ [] }) false) ⊎ (result ≡ CatOutcome.OutOfMemory) }
{
    let mut faults = Listed::new(alloc);
    match faults.push(fault) {
        Ok(()) => {
            let notices = Listed::new(alloc);
            CatOutcome::Done(Report { notices, faults }, false)
        }
        Err(_) => CatOutcome::OutOfMemory,
    }
}

// The answer of a call that has no clock, for this cause.
fn without_clock(alloc: Global, stop: ClockStop) -> CatOutcome
    ensures { IsNoClock stop result }
{
    match stop {
        ClockStop::Fault(fault) => alone(alloc, fault),
        ClockStop::Memory => CatOutcome::OutOfMemory,
    }
}

/// The call that the words want, at this many seconds since 1970-01-01 0:0:0 UTC.
pub fn call_at<H: Host, K: Sink>(
    alloc: Global,
    host: &mut H,
    wanted: &Wanted,
    seconds: i64,
    out: &mut K,
) -> CatOutcome
    requires log { has_log_lengths wanted.now.log ≡ true }
    ensures told { CameSo (CatEnds wanted.now seconds result) (H.told host.old) (H.told host.new) (K.taken out.old)
        (K.taken out.new) }
    ensures counted { HasCounted result (H.counts host.old) (H.counts host.new) }
    ensures out { HasFault result fault.Out → Rose (K.faults out.old) (K.faults out.new) }
    ensures clock { HasFault result fault.Clock → ¬ (IsInRange seconds) }
    ensures no_clock { ¬ (IsInRange seconds) → (result ≡ CatOutcome.Done clock_fault false) ⊎ (result ≡ CatOutcome.OutOfMemory) }
    ensures words { result ≢ CatOutcome.BadWords }
    ensures counts { Onward (H.counts host.old) (H.counts host.new) }
    ensures puts { K.faults out.old ≤ K.faults out.new }
{
    match clock_in(alloc, host, &Zone::Utc, seconds) {
        Ok(clock) => call_confs(alloc, host, wanted, &clock, out),
        Err(stop) => without_clock(alloc, stop),
    }
}
