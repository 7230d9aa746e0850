// A row is played: its calls are made over its disk, and each is compared with what is wanted of it.
use lr_host::Entry;
use lr_memhost::{Failing, MemHost, MemSink};
use lr_rows_line::Trouble;
use lr_rows_read::{Call, Called, Deed, Row};
use lr_rows_scene::{
    Answer, Differences, Mark, Stopped, TICK_PATH, cut_keeping, do_deed, host_of, list_ticks,
    number_of, put_differences,
};
use lr_rules::Path;
use std::alloc::{AllocError, Global};

/// How a call ended.
#[derive(Clone, Copy)]
pub struct Made {
    pub status: u8,
    /// Whether the last fault of its report is that of the output.
    pub tells_out: bool,
}

/// What a program makes of the calls of rows.
pub trait Caller {
    /// Makes the call over the host, and prints into the output; how it ended. Trouble refuses the row.
    fn make(
        &self,
        alloc: Global,
        host: &mut MemHost,
        call: &Call,
        out: &mut MemSink,
    ) -> Result<Made, Trouble>;
}

/// A set of places, below a count: the bits of a mask.
#[derive(Clone, Copy)]
pub struct Kept {
    pub mask: u64,
    pub count: usize,
}

/// The places of the set, rising.
pub fn places(alloc: Global, kept: Kept) -> Result<Vec<usize>, AllocError> {
    let mut places = Vec::new(alloc);
    let mut rest = kept.mask;
    for place in 0..kept.count {
        if rest % 2 == 1 {
            places.push(place)?;
        }
        rest /= 2;
    }
    Ok(places)
}

/// The number of a put of the output, counted from 0, and what the call prints where none fails.
#[derive(Clone, Copy)]
pub struct Put<'a> {
    pub number: u64,
    pub clean: &'a [u8],
}

/// What is changed about a row when it is played.
#[derive(Clone, Copy)]
pub struct Twist<'a> {
    /// The first call meets this.
    pub failing: Option<Failing>,
    /// Before the second call the machine is cut so that the changes at these places stay, and revived; the first call is
    /// not looked at.
    pub kept: Option<Kept>,
    /// The configuration has these bytes.
    pub conf: Option<&'a [u8]>,
    /// Its call prints this, whatever the row wants.
    pub printed: Option<&'a [u8]>,
    /// In the first call this put fails.
    pub put: Option<Put<'a>>,
    /// The entries of a first call that meets nothing, with the ticks of its calls.
    pub first: &'a [Entry],
}

/// A row as it stands.
pub fn plain<'a>() -> Twist<'a> {
    Twist {
        failing: None,
        kept: None,
        conf: None,
        printed: None,
        put: None,
        first: &[],
    }
}

/// How a row was played.
#[derive(Drop)]
pub enum Played {
    Well,
    /// The machine can't stop so, or the put that was to fail never came.
    Past,
    /// A call that a deed names has this number.
    Number(u64),
    /// At the call of this line something differs.
    Differs(u32, Vec<u8>),
}

/// The numbers of calls that deeds name, as far as they were found.
#[derive(Clone, Copy)]
pub struct Found<'a> {
    pub numbers: &'a [u64],
    /// Whether a number is still wanted: then nothing is compared.
    pub is_search: bool,
}

fn stopped<'a>(twist: Twist<'a>) -> Option<Stopped<'a>> {
    match (twist.kept, twist.failing) {
        (Some(_), Some(failing)) => Some(Stopped {
            at: failing.at,
            first: twist.first,
        }),
        _ => None,
    }
}

// What comes before the call with this number in the row; false where it can't.
fn come_before(
    alloc: Global,
    host: &mut MemHost,
    at: usize,
    twist: Twist,
) -> Result<bool, Trouble> {
    match twist.kept {
        Some(kept) if at == 1 => cut_and_revive(alloc, host, kept),
        _ => Ok(true),
    }
}

fn cut_and_revive(alloc: Global, host: &mut MemHost, kept: Kept) -> Result<bool, Trouble> {
    let places = places(alloc, kept)?;
    let is_cut = cut_keeping(host, &places, &[])?;
    host.revive();
    Ok(is_cut)
}

// The number of the call that the deed waits for; none where it isn't found yet.
fn number_for(deed: &Deed, numbers: &[u64], taken: &mut usize) -> Option<u64> {
    if deed.called.is_none() {
        return Some(0);
    }
    let number = numbers.get(*taken).copied();
    *taken = (*taken).saturating_add(1);
    number
}

// Does what comes before a call, up to the first deed whose call isn't found yet.
fn do_all<'a>(
    alloc: Global,
    host: &mut MemHost,
    deeds: &'a [Deed],
    numbers: &[u64],
    taken: &mut usize,
) -> Result<Option<&'a Deed>, Trouble> {
    for deed in deeds {
        match number_for(deed, numbers, taken) {
            Some(number) => do_one(alloc, host, deed, number)?,
            None => return Ok(Some(deed)),
        }
    }
    Ok(None)
}

fn do_one(alloc: Global, host: &mut MemHost, deed: &Deed, number: u64) -> Result<(), Trouble> {
    match do_deed(alloc, host, &deed.what, number) {
        Ok(()) => Ok(()),
        Err(trouble) => Err(trouble.at(deed.line)),
    }
}

fn sink_of(alloc: Global, failing_puts: &[u64], put: Option<Put>) -> Result<MemSink, AllocError> {
    let mut failing = Vec::from_slice(alloc, failing_puts)?;
    if let Some(put) = put {
        failing.push(put.number)?;
    }
    Ok(MemSink::new(alloc, failing))
}

// Whether the put that was to fail never came: all was printed that is where none fails, and the report tells of no failed output.
fn is_past(twist: Twist, made: Made, printed: &[u8]) -> bool {
    match twist.put {
        Some(put) => !made.tells_out && printed == put.clean,
        None => false,
    }
}

// What is to be printed in the place of what the row wants.
fn wanted_of<'a>(twist: Twist<'a>) -> Option<&'a [u8]> {
    match twist.put {
        Some(put) => Some(put.clean),
        None => twist.printed,
    }
}

// Makes the call, with the ticks of its calls.
fn make_ticked<C: Caller>(
    alloc: Global,
    caller: &C,
    host: &mut MemHost,
    call: &Call,
) -> Result<(), Trouble> {
    list_ticks(alloc, host)?;
    let mut out = sink_of(alloc, &call.failing_puts, None)?;
    let _ = caller.make(alloc, host, call, &mut out)?;
    Ok(())
}

// The number of the call that is named, among those behind the first `from` entries.
fn look_up(
    alloc: Global,
    host: &MemHost,
    from: usize,
    calls: u64,
    called: &Called,
) -> Result<u64, Trouble> {
    match host.journal().entries.as_slice().get(from..) {
        Some(entries) => number_of(alloc, entries, calls, called),
        None => Err(Trouble::Odd("no such call comes")),
    }
}

// Makes the call, and looks up the number of the call that is named.
fn find_named<C: Caller>(
    alloc: Global,
    caller: &C,
    host: &mut MemHost,
    call: &Call,
    called: &Called,
) -> Result<u64, Trouble> {
    let from = host.journal().entries.len();
    let calls = host.calls();
    make_ticked(alloc, caller, host, call)?;
    look_up(alloc, host, from, calls, called)
}

fn find<C: Caller>(
    alloc: Global,
    caller: &C,
    host: &mut MemHost,
    call: &Call,
    deed: &Deed,
) -> Result<Played, Trouble> {
    let Some(called) = &deed.called else {
        return Ok(Played::Well);
    };
    match find_named(alloc, caller, host, call, called) {
        Ok(number) => Ok(Played::Number(number)),
        Err(trouble) => Err(trouble.at(deed.line)),
    }
}

// Makes the call, and adds what differs; false where the put that was to fail never came.
fn make_into<C: Caller>(
    alloc: Global,
    caller: &C,
    host: &mut MemHost,
    call: &Call,
    twist: Twist,
    out: &mut MemSink,
    differences: &mut Differences,
) -> Result<bool, Trouble> {
    let mark = Mark {
        entries: host.journal().entries.len(),
        calls: host.calls(),
    };
    let made = caller.make(alloc, host, call, out)?;
    if is_past(twist, made, out.bytes()) {
        return Ok(false);
    }
    let answer = Answer {
        status: made.status,
        printed: out.bytes(),
        wanted: wanted_of(twist),
        tells_out: made.tells_out,
        is_cut: twist.put.is_some(),
    };
    let stopped = stopped(twist);
    put_differences(
        alloc,
        differences,
        host,
        &call.wanted,
        answer,
        mark,
        stopped,
    )?;
    Ok(true)
}

// Makes the call; what differs, as a text, and none where the put that was to fail never came.
fn make_call<C: Caller>(
    alloc: Global,
    caller: &C,
    host: &mut MemHost,
    call: &Call,
    twist: Twist,
) -> Result<Option<Vec<u8>>, Trouble> {
    let mut out = sink_of(alloc, &call.failing_puts, twist.put)?;
    let mut differences = Differences::new(alloc);
    if make_into(alloc, caller, host, call, twist, &mut out, &mut differences)? {
        Ok(Some(differences.into_text()))
    } else {
        Ok(None)
    }
}

fn played_of(line: u32, is_seen: bool, text: Option<Vec<u8>>) -> Played {
    match text {
        _ if !is_seen => Played::Well,
        None => Played::Past,
        Some(text) if text.is_empty() => Played::Well,
        Some(text) => Played::Differs(line, text),
    }
}

// The puts of the first call fail alone.
fn twist_of<'a>(at: usize, twist: Twist<'a>) -> Twist<'a> {
    let put = if at == 0 { twist.put } else { None };
    Twist { put, ..twist }
}

/// Lets the first call meet what it is to meet.
pub fn fail_first(host: &mut MemHost, at: usize, failing: Option<Failing>) -> Result<(), Trouble> {
    match failing {
        Some(failing) if at == 0 => Ok(host.fail(failing)?),
        _ => Ok(()),
    }
}

// Makes the call with this number in the row, and compares.
fn make_seen<C: Caller>(
    alloc: Global,
    caller: &C,
    host: &mut MemHost,
    call: &Call,
    at: usize,
    twist: Twist,
    found: Found,
) -> Result<Played, Trouble> {
    fail_first(host, at, twist.failing)?;
    let is_seen = !found.is_search && (at > 0 || twist.kept.is_none());
    match make_call(alloc, caller, host, call, twist_of(at, twist)) {
        Ok(text) => Ok(played_of(call.line, is_seen, text)),
        Err(trouble) => Err(trouble.at(call.line)),
    }
}

// Plays the call with this number in the row.
fn play_call<C: Caller>(
    alloc: Global,
    caller: &C,
    host: &mut MemHost,
    call: &Call,
    at: usize,
    twist: Twist,
    found: Found,
    taken: &mut usize,
) -> Result<Played, Trouble> {
    if !come_before(alloc, host, at, twist)? {
        return Ok(Played::Past);
    }
    match do_all(alloc, host, &call.deeds, found.numbers, taken)? {
        Some(deed) => find(alloc, caller, host, call, deed),
        None => make_seen(alloc, caller, host, call, at, twist, found),
    }
}

fn play_calls<C: Caller>(
    alloc: Global,
    caller: &C,
    host: &mut MemHost,
    row: &Row,
    twist: Twist,
    found: Found,
) -> Result<Played, Trouble> {
    let mut taken = 0usize;
    for (at, call) in row.calls.iter().enumerate() {
        let played = play_call(alloc, caller, host, call, at, twist, found, &mut taken)?;
        if !matches!(&played, Played::Well) {
            return Ok(played);
        }
    }
    Ok(Played::Well)
}

/// The host of the row; while numbers are wanted, with the file that ticks need.
pub fn host_for(
    alloc: Global,
    row: &Row,
    conf: Option<&[u8]>,
    is_search: bool,
) -> Result<MemHost, Trouble> {
    let path = Path::new(alloc, TICK_PATH)?;
    let more = if is_search { Some(&path) } else { None };
    host_of(alloc, &row.start, conf, more)
}

fn play_once<C: Caller>(
    alloc: Global,
    caller: &C,
    row: &Row,
    twist: Twist,
    found: Found,
) -> Result<Played, Trouble> {
    let mut host = host_for(alloc, row, twist.conf, found.is_search)?;
    play_calls(alloc, caller, &mut host, row, twist, found)
}

// How many of these wait for a call that is named.
fn count_deeds(deeds: &[Deed]) -> usize {
    let mut count = 0usize;
    for deed in deeds {
        if deed.called.is_some() {
            count = count.saturating_add(1);
        }
    }
    count
}

// How many calls are named before these.
fn count_named(calls: &[Call]) -> usize {
    let mut count = 0usize;
    for call in calls {
        count = count.saturating_add(count_deeds(&call.deeds));
    }
    count
}

// Finds so many numbers of named calls; false where the machine can't stop so.
fn find_numbers<C: Caller>(
    alloc: Global,
    caller: &C,
    row: &Row,
    twist: Twist,
    count: usize,
    numbers: &mut Vec<u64>,
) -> Result<bool, Trouble> {
    for _ in 0..count {
        let found = Found {
            numbers: numbers.as_slice(),
            is_search: true,
        };
        match play_once(alloc, caller, row, twist, found)? {
            Played::Number(number) => numbers.push(number)?,
            _ => return Ok(false),
        }
    }
    Ok(true)
}

/// Plays the row.
pub fn play<C: Caller>(
    alloc: Global,
    caller: &C,
    row: &Row,
    twist: Twist,
) -> Result<Played, Trouble> {
    let mut numbers = Vec::new(alloc);
    let count = count_named(&row.calls);
    if !find_numbers(alloc, caller, row, twist, count, &mut numbers)? {
        return Ok(Played::Past);
    }
    let found = Found {
        numbers: numbers.as_slice(),
        is_search: false,
    };
    play_once(alloc, caller, row, twist, found)
}

// Makes the first call over the host.
fn make_first<C: Caller>(
    alloc: Global,
    caller: &C,
    host: &mut MemHost,
    call: &Call,
    numbers: &[u64],
    failing: Option<Failing>,
) -> Result<(), Trouble> {
    let mut taken = 0usize;
    let _ = do_all(alloc, host, &call.deeds, numbers, &mut taken)?;
    fail_first(host, 0, failing)?;
    if failing.is_none() {
        list_ticks(alloc, host)?;
    }
    let mut out = sink_of(alloc, &call.failing_puts, None)?;
    let _ = caller.make(alloc, host, call, &mut out)?;
    Ok(())
}

// The numbers of the calls that are named before the first call.
fn first_numbers<C: Caller>(alloc: Global, caller: &C, row: &Row) -> Result<Vec<u64>, Trouble> {
    let mut numbers = Vec::new(alloc);
    let count = match row.calls.first() {
        Some(call) => count_deeds(&call.deeds),
        None => 0,
    };
    let _ = find_numbers(alloc, caller, row, plain(), count, &mut numbers)?;
    Ok(numbers)
}

fn make_first_of<C: Caller>(
    alloc: Global,
    caller: &C,
    host: &mut MemHost,
    row: &Row,
    numbers: &[u64],
    failing: Option<Failing>,
) -> Result<(), Trouble> {
    match row.calls.first() {
        Some(call) => make_first(alloc, caller, host, call, numbers, failing),
        None => Err(Trouble::Odd("the row has no call")),
    }
}

/// The host behind the first call of the row, which meets this; where it meets nothing, with the ticks of its calls.
pub fn behind_first<C: Caller>(
    alloc: Global,
    caller: &C,
    row: &Row,
    failing: Option<Failing>,
) -> Result<MemHost, Trouble> {
    let numbers = first_numbers(alloc, caller, row)?;
    let mut host = host_for(alloc, row, None, true)?;
    make_first_of(alloc, caller, &mut host, row, &numbers, failing)?;
    Ok(host)
}

// What the call prints over the host, behind what comes before it.
fn print_first<C: Caller>(
    alloc: Global,
    caller: &C,
    host: &mut MemHost,
    call: &Call,
    numbers: &[u64],
) -> Result<Vec<u8>, Trouble> {
    let mut taken = 0usize;
    let _ = do_all(alloc, host, &call.deeds, numbers, &mut taken)?;
    let mut out = sink_of(alloc, &call.failing_puts, None)?;
    let _ = caller.make(alloc, host, call, &mut out)?;
    Ok(Vec::from_slice(alloc, out.bytes())?)
}

/// What the first call of the row prints.
pub fn printed_by_first<C: Caller>(
    alloc: Global,
    caller: &C,
    row: &Row,
) -> Result<Vec<u8>, Trouble> {
    let Some(call) = row.calls.first() else {
        return Err(Trouble::Odd("the row has no call"));
    };
    let numbers = first_numbers(alloc, caller, row)?;
    let mut host = host_for(alloc, row, None, false)?;
    print_first(alloc, caller, &mut host, call, &numbers)
}
