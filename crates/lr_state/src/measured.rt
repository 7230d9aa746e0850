// Whether the text of a table is small enough, whichever of its due logs are rotated.
ghost use Rattle.std.specs.Prelude.{◌≡◌, ◌<◌, ◌≤◌, ◌+◌, ℕ, List, [], ◌∷◌, ◌++◌, length, nat_le, true, unsigned_abs, is_some, IfOk};
ghost use Rattle.lr_rules.specs.declared.path.Path.{Path};
ghost use Rattle.lr_state.specs.Table.{is_table, moment_of};
ghost use Rattle.lr_state.specs.Written.{decimal, moment_text};
ghost use Rattle.lr_state.specs.After.{is_among};
ghost use Rattle.lr_state.specs.Measured.{longer_moment, measured_text};

use crate::state::{State, written_text_is_read};
use lr_rules::{Civil, Memory, Path};
use std::alloc::Global;

// How many digits a number below 10,000 has.
#[tactic(auto, unfolding(crate::specs::Written::decimal))]
fn digits(number: u16) -> u64
    requires { number < 10_000 }
    ensures digits { result ≡ length (decimal number) }
    ensures bound { result ≤ 4 }
{
    if number < 10 {
        1
    } else if number < 100 {
        2
    } else if number < 1000 {
        3
    } else {
        4
    }
}

fn year_digits(moment: &Civil) -> u64
    ensures digits { result ≡ length (decimal (unsigned_abs moment.now.year)) }
    ensures bound { result ≤ 4 }
{
    digits(moment.year.unsigned_abs())
}

fn part_digits(part: u8) -> u64
    ensures digits { result ≡ length (decimal part) }
    ensures bound { result ≤ 4 }
{
    digits(u16::from(part))
}

// The length of a moment's text, in bytes.
fn moment_len(moment: &Civil) -> u64
    ensures { result ≡ length (moment_text moment.now) }
{
    let date = year_digits(moment) + part_digits(moment.month) + part_digits(moment.day);
    let time = part_digits(moment.hour) + part_digits(moment.minute) + part_digits(moment.second);
    date + time + 5
}

// By how many bytes the longer of both is longer than the first.
fn growth(was: &Civil, now: &Civil) -> u64
    ensures { length (moment_text (longer_moment was.now now.now)) ≡ length (moment_text was.now) + result }
{
    moment_len(now).saturating_sub(moment_len(was))
}

// By how many bytes the text gets longer where this log is due too.
fn growth_by(table: &State, counted: &State, log: &Path, now: &Civil) -> u64
    ensures { (due : List Path) → is_table table.now ≡ true → ((name : List ℕ)
        → is_some (moment_of counted.now name) ≡ is_among due name)
        → length (measured_text (due ++ log.now ∷ []) now.now table.now) ≡ length (measured_text due now.now table.now) + result }
{
    if counted.get(log.bytes()).is_some() {
        return 0;
    }
    match table.get(log.bytes()) {
        Some(was) => growth(&was, now),
        None => 0,
    }
}

/// Whether the text of the table has at most 67,108,864 bytes, whichever of the logs that are due are rotated at this moment:
/// for each of them the longer of its old moment and this one counts.
pub fn fits(alloc: Global, table: &State, due: &[Path], now: &Civil) -> Result<bool, Memory>
    ensures { IfOk result (λ b. b ≡ nat_le (length (measured_text due.now now.now table.now)) 67_108_864) }
{
    let mut len = table.text_len();
    if len > 67_108_864 {
        return Ok(false);
    }
    // So no name stands twice in it.
    written_text_is_read(table);
    let mut counted = State::new(alloc);
    for log in due {
        len = len.saturating_add(growth_by(table, &counted, log, now));
        counted.set(log.bytes(), *now)?;
    }
    Ok(len <= 67_108_864)
}
