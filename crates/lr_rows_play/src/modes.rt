// The ways to play a row: once, or once for each of many twists.
use crate::chance::{generator, next_conf};
use crate::play::{
    Caller, Kept, Played, Put, Twist, behind_first, places, plain, play, printed_by_first,
};
use lr_host::Entry;
use lr_memhost::{Failing, How, MemHost};
use lr_rows_line::{Trouble, put_quoted};
use lr_rows_read::{Call, Called, Mode, RandomConf, Row, Says, Span};
use lr_rows_scene::{entry_of, number_of, put_entry};
use std::alloc::{AllocError, Global};

/// What came of a row: how often it was played, and the lines of what differs.
#[derive(Drop)]
pub struct Came {
    pub times: u64,
    pub differs: Vec<u8>,
}

// More name changes are not gone through.
const MOST_PENDING: usize = 10;

// Nor are more puts.
const MOST_PUTS: u64 = 1000;

impl Came {
    // Adds one play, unless the machine can't stop so.
    fn add(&mut self, alloc: Global, played: Played, twist: Twist) -> Result<(), AllocError> {
        match played {
            Played::Past | Played::Number(_) => return Ok(()),
            Played::Well => {}
            Played::Differs(line, text) => {
                put_heading(&mut self.differs, alloc, line, twist)?;
                self.differs.extend_from_slice(&text)?;
            }
        }
        self.times = self.times.saturating_add(1);
        Ok(())
    }
}

fn how_text(how: How) -> &'static [u8] {
    match how {
        How::NoEffect => b" without-effect",
        How::WithEffect => b" with-effect",
        How::Part(_) => b" part",
        How::Stop => b" stop",
    }
}

fn put_failing(
    into: &mut Vec<u8>,
    alloc: Global,
    first: &[Entry],
    failing: Failing,
) -> Result<(), AllocError> {
    into.extend_from_slice(b", ")?;
    match entry_of(first, failing.at) {
        Some(entry) => put_entry(into, alloc, entry)?,
        None => into.extend_from_slice(b"a call without an entry")?,
    }
    into.extend_from_slice(how_text(failing.how))
}

fn put_kept(into: &mut Vec<u8>, alloc: Global, kept: Kept) -> Result<(), AllocError> {
    into.extend_from_slice(b", kept")?;
    for place in &places(alloc, kept)? {
        let text = format!(in alloc; " {place}")?;
        into.extend_from_slice(text.as_bytes())?;
    }
    Ok(())
}

fn put_number(into: &mut Vec<u8>, alloc: Global, number: u64) -> Result<(), AllocError> {
    let text = format!(in alloc; ", put {number}")?;
    into.extend_from_slice(text.as_bytes())
}

// How the play was twisted.
fn put_twist(into: &mut Vec<u8>, alloc: Global, twist: Twist) -> Result<(), AllocError> {
    if let Some(failing) = twist.failing {
        put_failing(into, alloc, twist.first, failing)?;
    }
    if let Some(kept) = twist.kept {
        put_kept(into, alloc, kept)?;
    }
    if let Some(conf) = twist.conf {
        into.extend_from_slice(b", conf ")?;
        put_quoted(into, conf)?;
    }
    if let Some(put) = twist.put {
        put_number(into, alloc, put.number)?;
    }
    Ok(())
}

// Where the play differs: the line of the call, and how it was twisted.
fn put_heading(
    into: &mut Vec<u8>,
    alloc: Global,
    line: u32,
    twist: Twist,
) -> Result<(), AllocError> {
    let text = format!(in alloc; "\n  line {line}")?;
    into.extend_from_slice(text.as_bytes())?;
    put_twist(into, alloc, twist)
}

fn play_twisted<C: Caller>(
    alloc: Global,
    caller: &C,
    row: &Row,
    twist: Twist,
    came: &mut Came,
) -> Result<(), Trouble> {
    let played = play(alloc, caller, row, twist)?;
    Ok(came.add(alloc, played, twist)?)
}

fn number_or(
    alloc: Global,
    host: &MemHost,
    called: &Option<Called>,
    otherwise: u64,
) -> Result<u64, Trouble> {
    match called {
        Some(called) => number_of(alloc, host.journal().entries.as_slice(), 0, called),
        None => Ok(otherwise),
    }
}

// The numbers of the calls that the mode is for, the last of which isn't among them.
fn range(alloc: Global, host: &MemHost, span: &Span) -> Result<(u64, u64), Trouble> {
    let from = number_or(alloc, host, &span.from, 0)?;
    let last = number_or(alloc, host, &span.to, host.calls().saturating_sub(1))?;
    let to = last.saturating_add(1);
    if from < to {
        Ok((from, to))
    } else {
        Err(Trouble::Odd("no call stands between these"))
    }
}

// The call fails, unless it is the end of a run, which never does.
fn fail_one<C: Caller>(
    alloc: Global,
    caller: &C,
    row: &Row,
    failing: Failing,
    first: &[Entry],
    came: &mut Came,
) -> Result<(), Trouble> {
    if matches!(entry_of(first, failing.at), Some(Entry::Ends)) {
        return Ok(());
    }
    let twist = Twist {
        failing: Some(failing),
        first,
        ..plain()
    };
    play_twisted(alloc, caller, row, twist, came)
}

fn fail_each<C: Caller>(
    alloc: Global,
    caller: &C,
    row: &Row,
    span: &Span,
    host: &MemHost,
    came: &mut Came,
) -> Result<(), Trouble> {
    let (from, to) = range(alloc, host, span)?;
    let first = host.journal().entries.as_slice();
    for how in [How::NoEffect, How::WithEffect] {
        for at in from..to {
            fail_one(alloc, caller, row, Failing { at, how }, first, came)?;
        }
    }
    Ok(())
}

fn each_fails<C: Caller>(
    alloc: Global,
    caller: &C,
    row: &Row,
    span: &Span,
    came: &mut Came,
) -> Result<(), Trouble> {
    let host = behind_first(alloc, caller, row, None)?;
    fail_each(alloc, caller, row, span, &host, came)
}

// How many sets there are of so many things.
fn count_sets(count: usize) -> u64 {
    let mut sets = 1u64;
    for _ in 0..count {
        sets = sets.saturating_mul(2);
    }
    sets
}

// Stopped so, and cut in each way.
fn each_cut<C: Caller>(
    alloc: Global,
    caller: &C,
    row: &Row,
    failing: Failing,
    first: &[Entry],
    came: &mut Came,
) -> Result<(), Trouble> {
    let count = behind_first(alloc, caller, row, Some(failing))?.unsynced();
    if count > MOST_PENDING {
        return Err(Trouble::Odd("too many name changes are pending"));
    }
    for mask in 0..count_sets(count) {
        let twist = Twist {
            failing: Some(failing),
            kept: Some(Kept { mask, count }),
            first,
            ..plain()
        };
        play_twisted(alloc, caller, row, twist, came)?;
    }
    Ok(())
}

fn stop_each<C: Caller>(
    alloc: Global,
    caller: &C,
    row: &Row,
    span: &Span,
    host: &MemHost,
    came: &mut Came,
) -> Result<(), Trouble> {
    let (from, to) = range(alloc, host, span)?;
    let first = host.journal().entries.as_slice();
    for at in from..to {
        let how = How::Stop;
        each_cut(alloc, caller, row, Failing { at, how }, first, came)?;
    }
    Ok(())
}

fn each_stops<C: Caller>(
    alloc: Global,
    caller: &C,
    row: &Row,
    span: &Span,
    came: &mut Came,
) -> Result<(), Trouble> {
    let host = behind_first(alloc, caller, row, None)?;
    stop_each(alloc, caller, row, span, &host, came)
}

// Each put fails in turn, up to the first that never comes.
fn each_put<C: Caller>(
    alloc: Global,
    caller: &C,
    row: &Row,
    clean: &[u8],
    came: &mut Came,
) -> Result<(), Trouble> {
    for number in 0..MOST_PUTS {
        let twist = Twist {
            put: Some(Put { number, clean }),
            ..plain()
        };
        match play(alloc, caller, row, twist)? {
            Played::Past => return Ok(()),
            played => came.add(alloc, played, twist)?,
        }
    }
    Err(Trouble::Odd("the output is put to too often"))
}

// None fails, and then each.
fn each_put_fails<C: Caller>(
    alloc: Global,
    caller: &C,
    row: &Row,
    came: &mut Came,
) -> Result<(), Trouble> {
    play_twisted(alloc, caller, row, plain(), came)?;
    let clean = printed_by_first(alloc, caller, row)?;
    each_put(alloc, caller, row, &clean, came)
}

fn play_conf<C: Caller>(
    alloc: Global,
    caller: &C,
    row: &Row,
    conf: &[u8],
    came: &mut Came,
) -> Result<(), Trouble> {
    let twist = Twist {
        conf: Some(conf),
        ..plain()
    };
    play_twisted(alloc, caller, row, twist, came)
}

fn conf_of(row: &Row) -> Result<&[u8], Trouble> {
    for file in &row.start.files {
        if file.path.has_bytes(b"/etc/c") {
            return Ok(file.bytes.as_slice());
        }
    }
    Err(Trouble::Odd("the row has no configuration"))
}

fn each_beginning<C: Caller>(
    alloc: Global,
    caller: &C,
    row: &Row,
    least: u64,
    most: u64,
    came: &mut Came,
) -> Result<(), Trouble> {
    let conf = conf_of(row)?;
    for at in least..=most {
        match conf.get(..at as usize) {
            Some(beginning) => play_conf(alloc, caller, row, beginning, came)?,
            None => return Err(Trouble::Odd("the configuration isn't so long")),
        }
    }
    Ok(())
}

fn each_random<C: Caller>(
    alloc: Global,
    caller: &C,
    row: &Row,
    random: &RandomConf,
    came: &mut Came,
) -> Result<(), Trouble> {
    let _ = conf_of(row)?;
    let mut any = generator(random);
    for _ in 0..random.count {
        let conf = next_conf(alloc, random, &mut any)?;
        play_conf(alloc, caller, row, &conf, came)?;
    }
    Ok(())
}

// The template with the text in the place of each `@`.
fn filled(alloc: Global, template: &[u8], text: &[u8]) -> Result<Vec<u8>, AllocError> {
    let mut into = Vec::new(alloc);
    for byte in template {
        if *byte == b'@' {
            into.extend_from_slice(text)?;
        } else {
            into.push(*byte)?;
        }
    }
    Ok(into)
}

// What the row's call prints.
fn printed_of(row: &Row) -> &[u8] {
    match row.calls.first() {
        Some(Call { wanted, .. }) => match &wanted.printed {
            Some(text) => text.as_slice(),
            None => &[],
        },
        None => &[],
    }
}

// What is told is compared where these words stand in the configuration.
fn play_says<C: Caller>(
    alloc: Global,
    caller: &C,
    row: &Row,
    says: &Says,
    came: &mut Came,
) -> Result<(), Trouble> {
    let conf = filled(alloc, conf_of(row)?, &says.said)?;
    let printed = filled(alloc, printed_of(row), &says.told)?;
    let twist = Twist {
        conf: Some(&conf),
        printed: Some(&printed),
        ..plain()
    };
    let played = match play(alloc, caller, row, twist)? {
        Played::Differs(_, text) => Played::Differs(says.line, text),
        played => played,
    };
    Ok(came.add(alloc, played, twist)?)
}

fn each_says<C: Caller>(
    alloc: Global,
    caller: &C,
    row: &Row,
    came: &mut Came,
) -> Result<(), Trouble> {
    if !conf_of(row)?.contains(&b'@') {
        return Err(Trouble::Odd("no `@` stands in the configuration"));
    }
    for says in &row.says {
        play_says(alloc, caller, row, says, came)?;
    }
    Ok(())
}

fn play_into<C: Caller>(
    alloc: Global,
    caller: &C,
    row: &Row,
    came: &mut Came,
) -> Result<(), Trouble> {
    match &row.mode {
        Mode::Plain if !row.says.is_empty() => each_says(alloc, caller, row, came),
        Mode::Plain => play_twisted(alloc, caller, row, plain(), came),
        Mode::EachFails(span) => each_fails(alloc, caller, row, span, came),
        Mode::EachStops(span) => each_stops(alloc, caller, row, span, came),
        Mode::EachPut => each_put_fails(alloc, caller, row, came),
        Mode::EachBeginning(least, most) => {
            each_beginning(alloc, caller, row, *least, *most, came)
        }
        Mode::Random(random) => each_random(alloc, caller, row, random, came),
    }
}

/// Plays the row in its mode.
pub fn play_all<C: Caller>(alloc: Global, caller: &C, row: &Row) -> Result<Came, Trouble> {
    let mut came = Came {
        times: 0,
        differs: Vec::new(alloc),
    };
    play_into(alloc, caller, row, &mut came)?;
    Ok(came)
}
