// What a run prints, and the report that it answers.
ghost use Rattle.std.specs.Prelude.{◌≡◌, ◌≤◌, ◌<◌, ◌+◌, ◌++◌, ◌||◌, [], Contains, IfOk, OnErr, OnOk, vec_len, vec_capacity};
ghost use Rattle.std.specs.Prelude.{if◌then◌else◌};
ghost use Rattle.lr_rules.specs.declared.fault.Fault.TheVariants as fault;
ghost use Rattle.lr_host.specs.Told.{Rose};
ghost use Rattle.lr_report.specs.Lines.{report_lines};
ghost use Rattle.lr_shown.specs.Lines.{plan_text};
ghost use Rattle.lr_shown.specs.Puts.{Puts};
ghost use Rattle.lr_cli.specs.Asked.{planned_text};
ghost use Rattle.lr_cli.specs.Faults.{answer_of, plan_told, HasFault};
ghost use Rattle.lr_cli.specs.Printed.{printed_of, without_out};
ghost use Rattle.lr_cli.specs.Says.{Prints};

use crate::told::Told;
use lr_command::Request;
use lr_host::{Sink, SinkFault};
use lr_plan::Plan;
use lr_report::{Outcome, printed, put_lines, report_behind};
use lr_run::RunStop;
use lr_shown::print;

// Puts the text of a plan, so far as the request asks for it.
fn put_plan<K: Sink>(request: &Request, plan: &Plan, out: &mut K) -> Result<(), SinkFault>
    ensures { Puts (if request.now.settings.debug || request.now.settings.verbose then plan_text request.now.settings.state
        request.now.settings.debug plan.now else []) result (K.taken out.old) (K.taken out.new) (K.faults out.old)
        (K.faults out.new) }
{
    if request.settings.debug || request.settings.verbose {
        print(plan, &request.settings.state, request.settings.debug, out)
    } else {
        Ok(())
    }
}

// Puts the text of the plan that a run came to.
fn put_planned<K: Sink>(request: &Request, told: &Told, out: &mut K) -> Result<(), SinkFault>
    ensures { Puts (planned_text request.now told.now.plan) result (K.taken out.old) (K.taken out.new) (K.faults out.old)
        (K.faults out.new) }
{
    match &told.plan {
        Some(plan) => put_plan(request, plan, out),
        None => Ok(()),
    }
}

// Puts the lines of what a run told.
fn put_said_lines<K: Sink>(told: &Told, out: &mut K) -> Result<(), SinkFault>
    ensures { Puts (report_lines told.now.notices told.now.faults.items) result (K.taken out.old) (K.taken out.new)
        (K.faults out.old) (K.faults out.new) }
{
    put_lines(told.notices.as_slice(), &told.faults, out)
}

// Puts all that there is to say of a run that told this: the text of its plan, and then the lines.
fn put_told<K: Sink>(request: &Request, told: &Told, out: &mut K) -> Result<(), SinkFault>
    ensures { Puts (planned_text request.now told.now.plan ++ report_lines told.now.notices told.now.faults.items) result
        (K.taken out.old) (K.taken out.new) (K.faults out.old) (K.faults out.new) }
{
    put_planned(request, told, out)?;
    put_said_lines(told, out)
}

// The report of what a run told, of which all that there is to say was put, or a first part, where the output failed.
#[tactic(auto, using(crate::proofs::OutAside::all_stay, crate::proofs::OutAside::last_goes))]
fn report_after(put: Result<(), SinkFault>, told: Told) -> Outcome
    requires room { vec_len told.faults < vec_capacity told.faults }
    requires no_out { Contains told.faults.items fault.Out → ⊥ }
    ensures faults { without_out result ≡ Outcome.Done (record { notices = told.notices; faults = told.faults.items }) }
    ensures same { OnOk put (result ≡ Outcome.Done (record { notices = told.notices; faults = told.faults.items })) }
    ensures out { OnErr put (HasFault result fault.Out) }
{
    let Told {
        notices,
        faults,
        ..
    } = told;
    report_behind(put, notices, faults)
}

// The report of what a run told, all of which is put. Where the output fails, it has `Out` behind the other faults, for
// which there is room.
fn report<K: Sink>(request: &Request, told: Told, out: &mut K) -> Outcome
    requires room { vec_len told.faults < vec_capacity told.faults }
    requires no_out { Contains told.faults.items fault.Out → ⊥ }
    ensures faults { without_out result ≡ Outcome.Done (record { notices = told.notices; faults = told.faults.items }) }
    ensures prints { Prints (printed_of (planned_text request.now told.plan) result) result (K.taken out.old) (K.taken out.new)
        (K.faults out.old) (K.faults out.new) }
    ensures out { HasFault result fault.Out → Rose (K.faults out.old) (K.faults out.new) }
    ensures counts { K.faults out.old ≤ K.faults out.new }
{
    let put = put_told(request, &told, out);
    report_after(put, told)
}

/// The answer of a run that told this, or stopped so, printed with the text of its plan. There is room for `Out`, so no
/// memory is taken here.
pub fn finish<K: Sink>(request: &Request, run: Result<Told, RunStop>, out: &mut K) -> Outcome
    requires room { IfOk run (λ told. vec_len told.faults + 1 ≤ vec_capacity told.faults) }
    requires no_out { IfOk run (λ told. Contains told.faults.items fault.Out → ⊥) }
    ensures answer { without_out result ≡ answer_of run }
    ensures prints { Prints (printed_of (planned_text request.now (plan_told run)) result) result (K.taken out.old)
        (K.taken out.new) (K.faults out.old) (K.faults out.new) }
    ensures out { HasFault result fault.Out → Rose (K.faults out.old) (K.faults out.new) }
    ensures counts { K.faults out.old ≤ K.faults out.new }
{
    match run {
        Ok(told) => report(request, told, out),
        Err(RunStop::Held) => printed(Outcome::Held, out),
        Err(RunStop::Memory) => printed(Outcome::OutOfMemory, out),
    }
}
