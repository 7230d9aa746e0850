// An audit by the configuration of some paths.
ghost use Rattle.std.specs.Prelude.{◌≡◌, ◌≤◌, ◌+◌, [], true, None, IfOk, OnOk, OnErr, vec_len, vec_capacity};
ghost use Rattle.lr_rules.specs.StatePath.{can_be_state};
ghost use Rattle.lr_host.specs.Counted.{AreCounted, WentBy};
ghost use Rattle.lr_host.specs.Quiet.{AreQuiet};
ghost use Rattle.lr_host.specs.Told.{Left, Onward};
ghost use Rattle.lr_clock.specs.Clock.{IsClocked, clock_answer};
ghost use Rattle.lr_report.specs.Reported.{AreReported};
ghost use Rattle.lr_command.specs.Words.{mail_program};
ghost use Rattle.lr_audit.specs.Came.{answer_of, audit_told, CallEnds};
ghost use Rattle.lr_audit.specs.Internal.{CameTo, ConfsCame, RulesCame};

use crate::auditing::audit_of;
use crate::told::Told;
use crate::words::Wanted;
use lr_audited::Audit;
use lr_clock::{ClockStop, clock_in};
use lr_command::mail_program;
use lr_due::Zone;
use lr_host::Host;
use lr_include::{Reading, read_all};
use lr_looks::look_all;
use lr_rules::{Clock, Fault, Listed, Memory, Path, Rules, Settings};
use std::alloc::Global;

// The settings of a run by `--force` with this state file. Which program mails files makes no difference here.
fn forced(alloc: Global, state: &Path) -> Result<Settings, Memory>
    requires { can_be_state state.now ≡ true }
    ensures state { IfOk result (λ settings. settings.state ≡ state.now) }
    ensures mailer { IfOk result (λ settings. settings.mailer ≡ mail_program) }
    ensures force { IfOk result (λ settings. settings.force ≡ true) }
{
    let state = state.copy(alloc)?;
    let mailer = mail_program(alloc)?;
    Ok(Settings {
        state,
        mailer,
        force: true,
        debug: false,
        verbose: false,
    })
}

// Looks at the logs of these rules, and audits them. The faults have room for one more.
fn audit_rules<H: Host>(
    alloc: Global,
    host: &mut H,
    rules: &Rules,
    clock: &Clock,
    settings: &Settings,
    faults: &mut Vec<Fault>,
) -> Result<Audit, Memory>
    requires force { settings.now.force ≡ true }
    requires mailer { settings.now.mailer ≡ mail_program }
    ensures told { IfOk result (λ audit. Left
        (RulesCame settings.now.state rules.now clock.entry.now audit faults.old.items faults.new.items) (H.told host.old)
        (H.told host.new)) }
    ensures some { OnErr result (Left AreQuiet (H.told host.old) (H.told host.new)) }
    ensures went { WentBy result faults.old.items faults.new.items (H.counts host.old) (H.counts host.new) }
    ensures room { OnOk result (vec_len faults.new + 1 ≤ vec_capacity faults.new) }
{
    let looks = look_all(alloc, host, rules, &settings.state, faults)?;
    let audit = audit_of(alloc, host, rules, &looks, clock, settings, faults)?;
    faults.reserve(1)?;
    Ok(audit)
}

// Reads the configuration, and audits the logs of its rules.
fn audit_confs<H: Host>(
    alloc: Global,
    host: &mut H,
    wanted: &Wanted,
    clock: &Clock,
) -> Result<Told, Memory>
    requires { can_be_state wanted.now.state ≡ true }
    ensures told { IfOk result (λ told. Left (ConfsCame wanted.now clock.entry.now told) (H.told host.old) (H.told host.new)) }
    ensures some { OnErr result (Left AreQuiet (H.told host.old) (H.told host.new)) }
    ensures counted { IfOk result (λ told. AreCounted told.faults.items (H.counts host.old) (H.counts host.new)) }
    ensures room { IfOk result (λ told. vec_len told.faults + 1 ≤ vec_capacity told.faults) }
    ensures counts { Onward (H.counts host.old) (H.counts host.new) }
{
    let settings = forced(alloc, &wanted.state)?;
    let reading = read_all(alloc, host, wanted.confs.as_slice())?;
    let Reading {
        rules,
        notices,
        faults,
    } = reading;
    let mut faults = faults.into_vec();
    let audit = audit_rules(alloc, host, &rules, clock, &settings, &mut faults)?;
    Ok(Told {
        audit: Some(audit),
        notices,
        faults,
    })
}

// What is told where there is no clock, in a list that has room for it and one more.
fn without_clock(alloc: Global, stop: ClockStop, faults: Vec<Fault>) -> Result<Told, Memory>
    requires none { faults.items ≡ [] }
    requires room { vec_len faults + 2 ≤ vec_capacity faults }
    ensures answer { answer_of result ≡ clock_answer stop }
    ensures audit { audit_told result ≡ None }
    ensures room { IfOk result (λ told. vec_len told.faults + 1 ≤ vec_capacity told.faults) }
{
    match stop {
        ClockStop::Fault(fault) => {
            let mut faults = faults;
            faults.push_reserved(fault);
            Ok(Told {
                audit: None,
                notices: Listed::new(alloc),
                faults,
            })
        }
        ClockStop::Memory => Err(Memory),
    }
}

/// Audits what the words want, by the clock in the zone at this many seconds since 1970. Where there is none, the call ends
/// so.
pub fn audit_at<H: Host>(
    alloc: Global,
    host: &mut H,
    wanted: &Wanted,
    zone: &Zone,
    seconds: i64,
) -> Result<Told, Memory>
    requires { can_be_state wanted.now.state ≡ true }
    ensures told { CameTo (CallEnds wanted.now zone.now seconds (audit_told result) (answer_of result)) (H.told host.old)
        (H.told host.new) }
    ensures clock { IfOk result (λ told. IsClocked zone.now seconds told.notices told.faults.items) }
    ensures counted { IfOk result (λ told. AreReported told.faults.items (H.counts host.old) (H.counts host.new)) }
    ensures room { IfOk result (λ told. vec_len told.faults + 1 ≤ vec_capacity told.faults) }
    ensures counts { Onward (H.counts host.old) (H.counts host.new) }
{
    let Ok(faults) = Vec::with_capacity(alloc, 2) else {
        return Err(Memory);
    };
    match clock_in(alloc, host, zone, seconds) {
        Ok(clock) => audit_confs(alloc, host, wanted, &clock),
        Err(stop) => without_clock(alloc, stop, faults),
    }
}
