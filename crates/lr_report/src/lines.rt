// The lines of notices and faults.
ghost use Rattle.std.specs.Prelude.{◌≡◌, ◌≤◌, map, OnErr, OnOk};
ghost use Rattle.lr_rules.specs.declared.fault.Ended.TheVariants as ended;
ghost use Rattle.std.specs.List.{concat};
ghost use Rattle.lr_rules.specs.declared.fault.Fault.TheVariants as fault;
ghost use Rattle.lr_host.specs.Told.{Rose};
ghost use Rattle.lr_report.specs.Puts.{Took, TookPart};
ghost use Rattle.lr_report.specs.Lines.{line, report_lines, passed, place, notice_text, fault_text};

use crate::kinds::{call_name, conf_kind_name, phase_name, state_kind_name, zone_name};
use crate::put::{put_five, put_four, put_one, put_three, put_two};
use itoa::Buffer;
use lr_host::{Sink, SinkFault};
use lr_rules::{ConfKind, Ended, Fault, Notice, Path, Phase, StateKind, Text};

fn put_place<K: Sink>(file: &Path, number: u32, out: &mut K) -> Result<(), SinkFault>
    ensures whole { OnOk result (Took (place file.now number) (K.taken out.old) (K.taken out.new)) }
    ensures part { TookPart (place file.now number) (K.taken out.old) (K.taken out.new) }
    ensures cause { OnErr result (Rose (K.faults out.old) (K.faults out.new)) }
    ensures counts { K.faults out.old ≤ K.faults out.new }
{
    let mut digits = Buffer::new();
    put_four(
        out,
        file.bytes(),
        b":",
        digits.format(number).as_bytes(),
        b": ",
    )
}

#[tactic(auto, using(crate::proofs::PutLemmas::part_first))]
fn put_conf<K: Sink>(file: &Path, number: u32, kind: ConfKind, out: &mut K) -> Result<(), SinkFault>
    ensures whole { OnOk result (Took (fault_text (fault.Conf file.now number kind)) (K.taken out.old) (K.taken out.new)) }
    ensures part { TookPart (fault_text (fault.Conf file.now number kind)) (K.taken out.old) (K.taken out.new) }
    ensures cause { OnErr result (Rose (K.faults out.old) (K.faults out.new)) }
    ensures counts { K.faults out.old ≤ K.faults out.new }
{
    put_place(file, number, out)?;
    put_one(out, conf_kind_name(kind))
}

fn put_state<K: Sink>(number: u32, kind: StateKind, out: &mut K) -> Result<(), SinkFault>
    ensures whole { OnOk result (Took (fault_text (fault.State number kind)) (K.taken out.old) (K.taken out.new)) }
    ensures part { TookPart (fault_text (fault.State number kind)) (K.taken out.old) (K.taken out.new) }
    ensures cause { OnErr result (Rose (K.faults out.old) (K.faults out.new)) }
    ensures counts { K.faults out.old ≤ K.faults out.new }
{
    let mut digits = Buffer::new();
    let number = digits.format(number).as_bytes();
    put_four(out, b"state line ", number, b": ", state_kind_name(kind))
}

fn put_exit<K: Sink>(phase: Phase, on: &Text, code: i32, out: &mut K) -> Result<(), SinkFault>
    ensures whole { OnOk result (Took (fault_text (fault.Script phase on.now (ended.Exit code))) (K.taken out.old)
        (K.taken out.new)) }
    ensures part { TookPart (fault_text (fault.Script phase on.now (ended.Exit code))) (K.taken out.old) (K.taken out.new) }
    ensures cause { OnErr result (Rose (K.faults out.old) (K.faults out.new)) }
    ensures counts { K.faults out.old ≤ K.faults out.new }
{
    let name = phase_name(phase);
    let mut digits = Buffer::new();
    let code = digits.format(code).as_bytes();
    put_five(out, name, b" of ", on.bytes(), b" ended with ", code)
}

fn put_script<K: Sink>(phase: Phase, on: &Text, end: Ended, out: &mut K) -> Result<(), SinkFault>
    ensures whole { OnOk result (Took (fault_text (fault.Script phase on.now end)) (K.taken out.old) (K.taken out.new)) }
    ensures part { TookPart (fault_text (fault.Script phase on.now end)) (K.taken out.old) (K.taken out.new) }
    ensures cause { OnErr result (Rose (K.faults out.old) (K.faults out.new)) }
    ensures counts { K.faults out.old ≤ K.faults out.new }
{
    match end {
        Ended::Exit(code) => put_exit(phase, on, code, out),
        Ended::Killed => put_four(out, phase_name(phase), b" of ", on.bytes(), b" was killed"),
    }
}

// What the fault says.
fn put_text<K: Sink>(fault: &Fault, out: &mut K) -> Result<(), SinkFault>
    ensures whole { OnOk result (Took (fault_text fault.now) (K.taken out.old) (K.taken out.new)) }
    ensures part { TookPart (fault_text fault.now) (K.taken out.old) (K.taken out.new) }
    ensures cause { OnErr result (Rose (K.faults out.old) (K.faults out.new)) }
    ensures counts { K.faults out.old ≤ K.faults out.new }
{
    match fault {
        Fault::Conf { file, line, kind } => put_conf(file, *line, *kind, out),
        Fault::Clock => put_one(out, b"clock is out of range"),
        Fault::Zone(why) => put_two(out, b"time zone: ", zone_name(*why)),
        Fault::State { line, kind } => put_state(*line, *kind, out),
        Fault::Missing(word) => put_two(out, word.bytes(), b": no such log"),
        Fault::NotFile(path) => put_two(out, path.bytes(), b": wrong kind of file"),
        Fault::NoDir(path) => put_two(out, path.bytes(), b": no directory"),
        Fault::Duplicate(path) => put_two(out, path.bytes(), b": defined twice"),
        Fault::Overlap(path, other) => {
            put_three(out, path.bytes(), b": names meet those of ", other.bytes())
        }
        Fault::Taken(path) => put_two(out, path.bytes(), b": name is taken"),
        Fault::Unfinished(path) => put_two(out, path.bytes(), b": taken up again"),
        Fault::TooHigh(path) => put_two(out, path.bytes(), b": number is too high"),
        Fault::LongName(word) => put_two(out, word.bytes(), b": name is too long"),
        Fault::TooMany(word) => put_two(out, word.bytes(), b": too many logs"),
        Fault::TooLong(path) => put_two(out, path.bytes(), b": file is too long"),
        Fault::Call(kind, path) => {
            put_four(out, path.bytes(), b": ", call_name(*kind), b" failed")
        }
        Fault::Script(phase, on, end) => put_script(*phase, on, *end, out),
        Fault::Out => put_one(out, b"output failed"),
    }
}

/// Puts the line of a fault.
pub fn put_fault<K: Sink>(fault: &Fault, out: &mut K) -> Result<(), SinkFault>
    ensures whole { OnOk result (Took (line (fault_text fault.now)) (K.taken out.old) (K.taken out.new)) }
    ensures part { TookPart (line (fault_text fault.now)) (K.taken out.old) (K.taken out.new) }
    ensures cause { OnErr result (Rose (K.faults out.old) (K.faults out.new)) }
    ensures counts { K.faults out.old ≤ K.faults out.new }
{
    put_one(out, b"logrotate: ")?;
    put_text(fault, out)?;
    put_one(out, b"\n")
}

fn passed_by(notice: &Notice) -> &[u8]
    ensures { result.now ≡ passed notice.now.word }
{
    match &notice.word {
        Some(word) => word.bytes(),
        None => b"owner",
    }
}

fn put_passed<K: Sink>(notice: &Notice, out: &mut K) -> Result<(), SinkFault>
    ensures whole { OnOk result (Took (notice_text notice.now) (K.taken out.old) (K.taken out.new)) }
    ensures part { TookPart (notice_text notice.now) (K.taken out.old) (K.taken out.new) }
    ensures cause { OnErr result (Rose (K.faults out.old) (K.faults out.new)) }
    ensures counts { K.faults out.old ≤ K.faults out.new }
{
    put_one(out, b"notice: ")?;
    put_place(&notice.file, notice.line, out)?;
    put_two(out, passed_by(notice), b" passed over")
}

/// Puts the line of a notice.
pub fn put_notice<K: Sink>(notice: &Notice, out: &mut K) -> Result<(), SinkFault>
    ensures whole { OnOk result (Took (line (notice_text notice.now)) (K.taken out.old) (K.taken out.new)) }
    ensures part { TookPart (line (notice_text notice.now)) (K.taken out.old) (K.taken out.new) }
    ensures cause { OnErr result (Rose (K.faults out.old) (K.faults out.new)) }
    ensures counts { K.faults out.old ≤ K.faults out.new }
{
    put_one(out, b"logrotate: ")?;
    put_passed(notice, out)?;
    put_one(out, b"\n")
}

fn put_notices<K: Sink>(notices: &[Notice], out: &mut K) -> Result<(), SinkFault>
    ensures whole { OnOk result (Took (concat (map (λ n. line (notice_text n)) notices.now)) (K.taken out.old) (K.taken out.new)) }
    ensures part { TookPart (concat (map (λ n. line (notice_text n)) notices.now)) (K.taken out.old) (K.taken out.new) }
    ensures cause { OnErr result (Rose (K.faults out.old) (K.faults out.new)) }
    ensures counts { K.faults out.old ≤ K.faults out.new }
{
    for notice in notices {
        put_notice(notice, out)?;
    }
    Ok(())
}

fn put_faults<K: Sink>(faults: &[Fault], out: &mut K) -> Result<(), SinkFault>
    ensures whole { OnOk result (Took (concat (map (λ f. line (fault_text f)) faults.now)) (K.taken out.old) (K.taken out.new)) }
    ensures part { TookPart (concat (map (λ f. line (fault_text f)) faults.now)) (K.taken out.old) (K.taken out.new) }
    ensures cause { OnErr result (Rose (K.faults out.old) (K.faults out.new)) }
    ensures counts { K.faults out.old ≤ K.faults out.new }
{
    for fault in faults {
        put_fault(fault, out)?;
    }
    Ok(())
}

/// Puts the lines of the notices, then of the faults, each in order; of an output that fails, a first part of them came.
/// It takes no memory.
#[tactic(auto, using(crate::proofs::PutLemmas::part_first))]
pub fn put_lines<K: Sink>(
    notices: &[Notice],
    faults: &[Fault],
    out: &mut K,
) -> Result<(), SinkFault>
    ensures whole { OnOk result (Took (report_lines notices.now faults.now) (K.taken out.old) (K.taken out.new)) }
    ensures part { TookPart (report_lines notices.now faults.now) (K.taken out.old) (K.taken out.new) }
    ensures cause { OnErr result (Rose (K.faults out.old) (K.faults out.new)) }
    ensures counts { K.faults out.old ≤ K.faults out.new }
{
    put_notices(notices, out)?;
    put_faults(faults, out)
}

/// Puts the line of a run that ended without a report: `bad command line`, say.
pub fn put_said<K: Sink>(said: &[u8], out: &mut K) -> Result<(), SinkFault>
    ensures whole { OnOk result (Took (line said.now) (K.taken out.old) (K.taken out.new)) }
    ensures part { TookPart (line said.now) (K.taken out.old) (K.taken out.new) }
    ensures cause { OnErr result (Rose (K.faults out.old) (K.faults out.new)) }
    ensures counts { K.faults out.old ≤ K.faults out.new }
{
    put_three(out, b"logrotate: ", said, b"\n")
}
