// The texts that a trial begins with and ends with, and the paths of its logs.
ghost use Rattle.std.specs.Prelude.{◌≡◌, ◌++◌, OnOk, IfOk};
ghost use Rattle.lr_nights.specs.Draws.{behind_two};
ghost use Rattle.lr_nights.specs.Printed.{number_line, summary_text};
ghost use Rattle.lr_nights.specs.Opening.{log_path, definition, definitions_from, create_line, state_line, state_lines_from};

use crate::draws::draw;
use crate::summary::Summary;
use itoa::Buffer;
use lr_rules::{Memory, Path};
use std::alloc::Global;

// Adds two pieces.
fn add_two(text: &mut Vec<u8>, a: &[u8], b: &[u8]) -> Result<(), Memory>
    ensures { OnOk result (text.new.items ≡ text.old.items ++ (a.now ++ b.now)) }
{
    text.extend_from_slice(a)?;
    text.extend_from_slice(b)?;
    Ok(())
}

// Adds three pieces.
fn add_three(text: &mut Vec<u8>, a: &[u8], b: &[u8], c: &[u8]) -> Result<(), Memory>
    ensures { OnOk result (text.new.items ≡ text.old.items ++ (a.now ++ (b.now ++ c.now))) }
{
    text.extend_from_slice(a)?;
    add_two(text, b, c)
}

// Adds the path of the log with this number.
fn add_log_path(text: &mut Vec<u8>, log: u32) -> Result<(), Memory>
    ensures { OnOk result (text.new.items ≡ text.old.items ++ log_path log) }
{
    let mut digits = Buffer::new();
    add_three(text, b"/v/", digits.format(log).as_bytes(), b".log")
}

/// The path of these bytes, which are one.
pub fn path_of(alloc: Global, bytes: &[u8]) -> Result<Path, Memory>
    ensures { IfOk result (λ path. path ≡ bytes.now) }
{
    match Path::new(alloc, bytes) {
        Ok(path) => Ok(path),
        // They are a path, so this is want of memory.
        Err(_) => Err(Memory),
    }
}

/// The path of the log with this number.
pub fn log_path(alloc: Global, log: u32) -> Result<Path, Memory>
    ensures { IfOk result (λ path. path ≡ log_path log) }
{
    let mut text = Vec::new(alloc);
    add_log_path(&mut text, log)?;
    path_of(alloc, text.as_slice())
}

fn create_line(drawn: u64) -> &'static [u8]
    ensures { result.now ≡ create_line drawn }
{
    if drawn % 2 == 0 { b"create\n" } else { b"" }
}

// Adds the definition of a log.
fn add_definition(text: &mut Vec<u8>, log: u32, x: &mut u64) -> Result<(), Memory>
    ensures text { OnOk result (text.new.items ≡ text.old.items ++ definition log x.old) }
    ensures next { OnOk result (x.new ≡ behind_two x.old) }
{
    let count = 1 + draw(x) % 7;
    let create = create_line(draw(x));
    let mut digits = Buffer::new();
    add_log_path(text, log)?;
    add_two(text, b" {\ndaily\nrotate ", digits.format(count).as_bytes())?;
    add_three(text, b"\n", create, b"}\n")
}

/// The configuration of so many logs.
pub fn configuration(alloc: Global, logs: u32) -> Result<Vec<u8>, Memory>
    ensures { IfOk result (λ text. text.items ≡ definitions_from 0 logs logs) }
{
    let mut text = Vec::new(alloc);
    let mut x = u64::from(logs);
    for log in 0..logs {
        add_definition(&mut text, log, &mut x)?;
    }
    Ok(text)
}

// Adds the state's line of a log.
fn add_state_line(text: &mut Vec<u8>, log: u32) -> Result<(), Memory>
    ensures { OnOk result (text.new.items ≡ text.old.items ++ state_line log) }
{
    text.push(b'"')?;
    add_log_path(text, log)?;
    text.extend_from_slice(b"\" 2024-1-1-0:0:0\n")?;
    Ok(())
}

/// Adds the lines of the state of so many logs.
pub fn add_state_lines(text: &mut Vec<u8>, logs: u32) -> Result<(), Memory>
    ensures { OnOk result (text.new.items ≡ text.old.items ++ state_lines_from 0 logs) }
{
    for log in 0..logs {
        add_state_line(text, log)?;
    }
    Ok(())
}

// Adds the line of a number.
fn add_number(text: &mut Vec<u8>, name: &[u8], number: u64) -> Result<(), Memory>
    ensures { OnOk result (text.new.items ≡ text.old.items ++ number_line name.now number) }
{
    let mut digits = Buffer::new();
    text.extend_from_slice(name)?;
    add_three(text, b" ", digits.format(number).as_bytes(), b"\n")
}

/// Adds the six lines of a summary.
pub fn add_summary(text: &mut Vec<u8>, summary: &Summary) -> Result<(), Memory>
    ensures { OnOk result (text.new.items ≡ text.old.items ++ summary_text summary.now) }
{
    add_number(text, b"nights", u64::from(summary.nights))?;
    add_number(text, b"runs", u64::from(summary.runs))?;
    add_number(text, b"begun", summary.begun)?;
    add_number(text, b"files", summary.files)?;
    add_number(text, b"bytes", summary.bytes)?;
    add_number(text, b"released", summary.released)
}
