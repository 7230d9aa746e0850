// One run over the configuration of some paths.
ghost use Rattle.std.specs.Prelude.{◌≡◌, ◌≤◌, ◌+◌, [], None, Err, IfOk, vec_len, vec_capacity};
ghost use Rattle.lr_host.specs.Opening.{IsJournal};
ghost use Rattle.lr_host.specs.Told.{Left, Onward, Rose, WhereTold};
ghost use Rattle.lr_host.specs.Counted.{WentBy};
ghost use Rattle.lr_laws_rotations.specs.Runs.{IsWholeRunBy};
ghost use Rattle.lr_cli.specs.Called.{CallEnds};
ghost use Rattle.lr_clock.specs.Clock.{IsClocked, clock_answer};
ghost use Rattle.lr_report.specs.Reported.{AreReported};
ghost use Rattle.lr_cli.specs.Faults.{answer_of, plan_told, told_faults};
ghost use Rattle.lr_cli.specs.Internal.{CameTo, ConfsEnd, TurnsByClock};

use crate::told::Told;
use lr_clock::{ClockStop, clock_in};
use lr_command::Request;
use lr_due::Zone;
use lr_host::Host;
use lr_include::{Reading, read_all};
use lr_rules::{Clock, Fault, Listed};
use lr_run::{RunStop, run};
use std::alloc::Global;

/// Reads the configuration of a request, and makes a run over its rules, by its settings. All memory but that of programs is
/// taken before the first change.
pub fn run_confs<H: Host>(
    alloc: Global,
    host: &mut H,
    request: &Request,
    clock: &Clock,
) -> Result<Told, RunStop>
    requires disk { WhereTold (H.told host.old) IsJournal }
    ensures told { CameTo (ConfsEnd request.now clock.entry.now (plan_told result) (answer_of result)) request.now
        (answer_of result) (H.told host.old) (H.told host.new) }
    ensures shape { Left (IsWholeRunBy clock.entry.now) (H.told host.old) (H.told host.new) }
    ensures went { WentBy result [] (told_faults result) (H.counts host.old) (H.counts host.new) }
    ensures room { IfOk result (λ told. vec_len told.faults + 1 ≤ vec_capacity told.faults) }
    ensures held { result ≡ Err RunStop.Held → Rose (H.counts host.old).held (H.counts host.new).held }
{
    let Ok(reading) = read_all(alloc, host, request.confs.as_slice()) else {
        return Err(RunStop::Memory);
    };
    let Reading {
        rules,
        notices,
        faults,
    } = reading;
    match run(
        alloc,
        &rules,
        &request.settings,
        clock,
        faults.into_vec(),
        host,
    ) {
        Ok(ran) => Ok(Told {
            plan: ran.plan,
            notices,
            faults: ran.faults,
        }),
        Err(stop) => Err(stop),
    }
}

// What is told where there is no clock, in a list that has room for it and one more.
fn without_clock(alloc: Global, stop: ClockStop, faults: Vec<Fault>) -> Result<Told, RunStop>
    requires none { faults.items ≡ [] }
    requires room { vec_len faults + 2 ≤ vec_capacity faults }
    ensures answer { answer_of result ≡ clock_answer stop }
    ensures plan { plan_told result ≡ None }
    ensures room { IfOk result (λ told. vec_len told.faults + 1 ≤ vec_capacity told.faults) }
{
    match stop {
        ClockStop::Fault(fault) => {
            let mut faults = faults;
            faults.push_reserved(fault);
            Ok(Told {
                plan: None,
                notices: Listed::new(alloc),
                faults,
            })
        }
        ClockStop::Memory => Err(RunStop::Memory),
    }
}

/// The same at this many seconds since 1970, by the clock in the zone. Where there is none, the call ends so.
pub fn run_at<H: Host>(
    alloc: Global,
    host: &mut H,
    request: &Request,
    zone: &Zone,
    seconds: i64,
) -> Result<Told, RunStop>
    requires disk { WhereTold (H.told host.old) IsJournal }
    ensures told { CameTo (CallEnds request.now zone.now seconds (plan_told result) (answer_of result)) request.now
        (answer_of result) (H.told host.old) (H.told host.new) }
    ensures clock { IfOk result (λ told. IsClocked zone.now seconds told.notices told.faults.items) }
    ensures shape { TurnsByClock zone.now seconds (H.told host.old) (H.told host.new) }
    ensures counted { IfOk result (λ told. AreReported told.faults.items (H.counts host.old) (H.counts host.new)) }
    ensures room { IfOk result (λ told. vec_len told.faults + 1 ≤ vec_capacity told.faults) }
    ensures held { result ≡ Err RunStop.Held → Rose (H.counts host.old).held (H.counts host.new).held }
    ensures counts { Onward (H.counts host.old) (H.counts host.new) }
{
    let Ok(faults) = Vec::with_capacity(alloc, 2) else {
        return Err(RunStop::Memory);
    };
    match clock_in(alloc, host, zone, seconds) {
        Ok(clock) => run_confs(alloc, host, request, &clock),
        Err(stop) => without_clock(alloc, stop, faults),
    }
}
