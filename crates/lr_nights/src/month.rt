// The thirty nights that a trial draws.
ghost use Rattle.std.specs.Prelude.{◌≡◌, ◌≤◌, IfOk, OnOk};
ghost use Rattle.lr_nights.specs.Draws.{behind_two, behind_logs};
ghost use Rattle.lr_nights.specs.Month.{fed_by, feeds_from, drawn_stop, behind_stop, night_of, behind_night, nights_from};
ghost use Rattle.lr_nights.specs.Month.{drawn_nights};

use crate::draws::draw;
use lr_rules::{Listed, Memory};
use std::alloc::Global;

/// What a writer appends in a night: so many bytes, all this letter. Moments are in seconds since 1970.
#[derive(Clone, Copy)]
pub struct Fed {
    pub writer: u32,
    pub count: u32,
    pub letter: u8,
    pub at: i64,
}

/// A night: when its run begins, what writers append before, and behind how many calls of the run the machine stops.
#[derive(Drop)]
pub struct Night {
    pub seconds: i64,
    pub feeds: Listed<Fed>,
    pub stop: Option<u64>,
}

fn draw_fed(x: &mut u64, writer: u32, at: u32) -> Fed
    ensures fed { result ≡ fed_by writer at x.old }
    ensures next { x.new ≡ behind_two x.old }
{
    let count = 1 + (draw(x) % 1000) as u32;
    let letter = 97 + (draw(x) % 26) as u8;
    Fed {
        writer,
        count,
        letter,
        at: i64::from(at),
    }
}

fn draw_feeds(alloc: Global, x: &mut u64, logs: u32, at: u32) -> Result<Listed<Fed>, Memory>
    ensures feeds { IfOk result (λ feeds. feeds ≡ feeds_from 0 logs at x.old) }
    ensures next { OnOk result (x.new ≡ behind_logs logs x.old) }
{
    let mut feeds = Listed::new(alloc);
    for writer in 0..logs {
        feeds.push(draw_fed(x, writer, at))?;
    }
    Ok(feeds)
}

fn draw_stop(x: &mut u64) -> Option<u64>
    ensures stop { result ≡ drawn_stop x.old }
    ensures next { x.new ≡ behind_stop x.old }
{
    if draw(x) % 4 == 0 {
        Some(draw(x) % 200)
    } else {
        None
    }
}

// The number of the night is at most 30.
fn draw_night(alloc: Global, x: &mut u64, logs: u32, night: u32) -> Result<Night, Memory>
    requires { night ≤ 30 }
    ensures night { IfOk result (λ n. n ≡ night_of logs night x.old) }
    ensures next { OnOk result (x.new ≡ behind_night logs x.old) }
{
    let at = 1_704_067_500 + 86_400 * night;
    let feeds = draw_feeds(alloc, x, logs, at)?;
    let stop = draw_stop(x);
    Ok(Night {
        seconds: i64::from(at),
        feeds,
        stop,
    })
}

// Draws what the definitions of so many logs are made of.
fn pass_logs(x: &mut u64, logs: u32)
    ensures { x.new ≡ behind_logs logs x.old }
{
    for _log in 0..logs {
        let _ = draw(x);
        let _ = draw(x);
    }
}

// The generator behind the definitions of so many logs.
fn behind_definitions(logs: u32) -> u64
    ensures { result ≡ behind_logs logs logs }
{
    let mut x = u64::from(logs);
    pass_logs(&mut x, logs);
    x
}

// Draws so many nights of so many logs.
fn draw_each(alloc: Global, x: &mut u64, logs: u32, count: u32) -> Result<Vec<Night>, Memory>
    requires { count ≤ 30 }
    ensures { IfOk result (λ nights. nights.items ≡ nights_from logs 1 count x.old) }
{
    let mut nights = Vec::new(alloc);
    for night in 1..count + 1 {
        nights.push(draw_night(alloc, x, logs, night)?)?;
    }
    Ok(nights)
}

/// The thirty nights of a trial with so many logs.
pub fn draw_nights(alloc: Global, logs: u32) -> Result<Vec<Night>, Memory>
    ensures { IfOk result (λ nights. nights.items ≡ drawn_nights logs) }
{
    let mut x = behind_definitions(logs);
    draw_each(alloc, &mut x, logs, 30)
}
