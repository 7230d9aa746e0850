// The lines of programs and of removals.
ghost use Rattle.std.specs.Prelude.{◌≡◌, ◌∷◌, [], drop, slice_index_or, option_copied};
ghost use Rattle.lr_report.specs.Kinds.{phase_text};
ghost use Rattle.lr_scripts.specs.Commands.{behind_spaces};
ghost use Rattle.lr_plan.specs.Steps.{input_of, program, removal, removals};
ghost use Rattle.lr_shown.specs.Lines.{script_line, mail_line, program_line, lines_of};
ghost use Rattle.lr_shown.specs.Puts.{Puts};

use crate::pieces::{put_path, put_text};
use lr_host::{Sink, SinkFault};
use lr_report::{phase_name, put_five, put_two};
use lr_rules::{Phase, Text};
use lr_scripts::{Command, Removal};

// The arguments of a script.
fn arguments(command: &Command) -> &[Text]
    ensures { result.now ≡ drop 3 command.now.args }
{
    let args = command.args.as_slice();
    if args.len() > 3 { &args[3..] } else { &[] }
}

// The address of a mail.
fn address(command: &Command) -> &[u8]
    ensures { result.now ≡ slice_index_or command.now.args 2 [] }
{
    match command.args.as_slice() {
        [_, _, address, ..] => address.bytes(),
        _ => b"",
    }
}

// The file that is mailed.
fn mailed(command: &Command) -> &[u8]
    ensures { result.now ≡ input_of command.now.input }
{
    match &command.input {
        Some(path) => path.bytes(),
        None => b"",
    }
}

fn put_word<K: Sink>(word: &Text, out: &mut K) -> Result<(), SinkFault>
    ensures { Puts (32 ∷ word.now) result (K.taken out.old) (K.taken out.new) (K.faults out.old) (K.faults out.new) }
{
    put_two(out, b" ", word.bytes())
}

fn put_words<K: Sink>(words: &[Text], out: &mut K) -> Result<(), SinkFault>
    ensures { Puts (behind_spaces words.now) result (K.taken out.old) (K.taken out.new) (K.faults out.old) (K.faults out.new) }
{
    for word in words {
        put_word(word, out)?;
    }
    Ok(())
}

fn put_arguments<K: Sink>(command: &Command, out: &mut K) -> Result<(), SinkFault>
    ensures { Puts (behind_spaces (drop 3 command.now.args)) result (K.taken out.old) (K.taken out.new) (K.faults out.old)
        (K.faults out.new) }
{
    put_words(arguments(command), out)
}

fn put_phase<K: Sink>(phase: Phase, out: &mut K) -> Result<(), SinkFault>
    ensures { Puts (phase_text phase) result (K.taken out.old) (K.taken out.new) (K.faults out.old) (K.faults out.new) }
{
    put_text(phase_name(phase), out)
}

fn put_script<K: Sink>(phase: Phase, command: &Command, out: &mut K) -> Result<(), SinkFault>
    ensures { Puts (script_line phase command.now) result (K.taken out.old) (K.taken out.new) (K.faults out.old)
        (K.faults out.new) }
{
    put_text(b"run ", out)?;
    put_phase(phase, out)?;
    put_arguments(command, out)?;
    put_text(b"\n", out)
}

fn put_mail<K: Sink>(command: &Command, out: &mut K) -> Result<(), SinkFault>
    ensures { Puts (mail_line command.now) result (K.taken out.old) (K.taken out.new) (K.faults out.old) (K.faults out.new) }
{
    put_five(
        out,
        b"mail ",
        mailed(command),
        b" to ",
        address(command),
        b"\n",
    )
}

fn put_command<K: Sink>(phase: Phase, command: &Command, out: &mut K) -> Result<(), SinkFault>
    ensures { Puts (program_line phase command.now) result (K.taken out.old) (K.taken out.new) (K.faults out.old)
        (K.faults out.new) }
{
    match phase {
        Phase::Mail => put_mail(command, out),
        _ => put_script(phase, command, out),
    }
}

/// Puts the line of a program, where there is one.
pub fn put_program<K: Sink>(
    phase: Phase,
    command: Option<&Command>,
    out: &mut K,
) -> Result<(), SinkFault>
    ensures { Puts (lines_of (program phase (option_copied command.entry))) result (K.taken out.old) (K.taken out.new)
        (K.faults out.old) (K.faults out.new) }
{
    match command {
        Some(command) => put_command(phase, command, out),
        None => Ok(()),
    }
}

fn put_removal<K: Sink>(file: &Removal, out: &mut K) -> Result<(), SinkFault>
    ensures { Puts (lines_of (removal file.now)) result (K.taken out.old) (K.taken out.new) (K.faults out.old) (K.faults out.new) }
{
    put_program(Phase::Preremove, file.preremove.as_ref(), out)?;
    put_program(Phase::Mail, file.mail.as_ref(), out)?;
    put_path(b"remove ", &file.path, out)
}

/// Puts the lines of the removals, in order.
pub fn put_removals<K: Sink>(files: &[Removal], out: &mut K) -> Result<(), SinkFault>
    ensures { Puts (lines_of (removals files.now)) result (K.taken out.old) (K.taken out.new) (K.faults out.old)
        (K.faults out.new) }
{
    for file in files {
        put_removal(file, out)?;
    }
    Ok(())
}
