// Files of rows: calls of the program over disks in memory, with writers, failing calls, stops and cuts, and calls of the
// host that is such a disk.
//
// A call of the program whose first word is `TZ=VALUE` is made in the zone that this value of the variable asks for, as in
// a shell, and any other in UTC. Where `lrcat` or `lraudit` is the next word, that program is called in place of `logrotate`.
use crate::cat::make_cat;
use anyhow::{Result, anyhow};
use lr_audit::lraudit;
use lr_cli::{Outcome, Zone, logrotate, status};
use lr_due::zone_of;
use lr_host::Sink;
use lr_memhost::{MemHost, MemSink};
use lr_rows_host::asked;
use lr_rows_line::Trouble;
use lr_rows_play::{Call, Caller, Made, Row, Verdict, judge, rows_of};
use lr_rows_read::Cursor;
use lr_rules::{Fault, Path, Text};
use std::alloc::Global;
use std::fs;

// The zone that this value of the variable TZ asks for.
fn zone_asked(alloc: Global, value: &[u8]) -> Result<Zone, Trouble> {
    let Ok(value) = Text::new(alloc, value) else {
        return Err(Trouble::Odd("a zone is no text"));
    };
    match zone_of(alloc, Some(&value)) {
        Ok(zone) => Ok(zone),
        Err(_) => Err(Trouble::Odd("a zone is asked for by no path")),
    }
}

// The zone of a call, and its words behind that.
fn zone_and_words(alloc: Global, words: &[Text]) -> Result<(Zone, &[Text]), Trouble> {
    if let Some(first) = words.first()
        && let Some(value) = first.bytes().strip_prefix(b"TZ=")
    {
        return Ok((zone_asked(alloc, value)?, &words[1..]));
    }
    Ok((Zone::Utc, words))
}

// Whether the report's last fault is that of the output.
fn tells_out(outcome: &Outcome) -> bool {
    match outcome {
        Outcome::Done(report) => matches!(report.faults.as_slice().last(), Some(Fault::Out)),
        _ => false,
    }
}

// The words behind a program's name, where it is the first of them.
fn words_behind<'a>(words: &'a [Text], name: &[u8]) -> Option<&'a [Text]> {
    match words {
        [first, ..] if first.bytes() == name => words.get(1..),
        _ => None,
    }
}

// Calls the program that the words name from the directory `/h`.
fn make_call(
    alloc: Global,
    host: &mut MemHost,
    call: &Call,
    out: &mut MemSink,
) -> Result<Made, Trouble> {
    let here = Path::new(alloc, b"/h")?;
    let (zone, words) = zone_and_words(alloc, &call.words)?;
    if let Some(words) = words_behind(words, b"lrcat") {
        return make_cat(alloc, host, words, &here, call.now, out);
    }
    // What a disk in memory tells is the history of a disk.
    let _disk = host.journal();
    let outcome = match words_behind(words, b"lraudit") {
        Some(words) => lraudit(alloc, words, &here, &zone, call.now, host, out),
        None => logrotate(alloc, words, &here, &zone, call.now, host, out),
    };
    Ok(Made {
        status: status(&outcome),
        tells_out: tells_out(&outcome),
    })
}

// `put BYTES..`: puts each of them to the output; 1 where one of the puts fails.
fn put_each(cursor: &mut Cursor, out: &mut MemSink) -> u8 {
    let mut status = 0;
    for word in cursor.rest() {
        if out.put(word.as_slice()).is_err() {
            status = 1;
        }
    }
    status
}

// Makes the call of the host that the word names, and prints what it answers, where all words were taken.
fn print_asked(
    host: &mut MemHost,
    cursor: &mut Cursor,
    word: &[u8],
    out: &mut MemSink,
) -> Result<u8, Trouble> {
    let Some(answer) = asked(host, cursor, word)? else {
        return Err(Trouble::Odd("no such call"));
    };
    if !cursor.is_done() {
        return Err(Trouble::Odd("a word too many"));
    }
    match out.put(&answer) {
        Ok(count) if count == answer.len() => Ok(0),
        _ => Err(Trouble::Odd("the output fails")),
    }
}

// Makes the call of the host that the words name; the status is 0, but where a put fails.
fn make_ask(
    alloc: Global,
    host: &mut MemHost,
    words: &[Vec<u8>],
    out: &mut MemSink,
) -> Result<Made, Trouble> {
    let mut cursor = Cursor {
        alloc,
        words,
        taken: 0,
    };
    let word = cursor.word()?;
    let status = if word == b"put".as_slice() {
        put_each(&mut cursor, out)
    } else {
        print_asked(host, &mut cursor, word, out)?
    };
    Ok(Made {
        status,
        tells_out: false,
    })
}

struct Calls;

impl Caller for Calls {
    fn make(
        &self,
        alloc: Global,
        host: &mut MemHost,
        call: &Call,
        out: &mut MemSink,
    ) -> Result<Made, Trouble> {
        match &call.asked {
            Some(words) => make_ask(alloc, host, words.as_slice(), out),
            None => make_call(alloc, host, call, out),
        }
    }
}

// Whether each row is judged so. A line is printed for each: its name and `ok`, with how often it was played, or what
// differs from what the row wants, or why it is refused.
fn tell_each(rt: &HostRuntime, rows: &[Row], wanted: Verdict) -> Result<bool> {
    let mut all = true;
    for row in rows {
        let name = str::from_utf8(&row.name).unwrap_or("?");
        let judgement = judge(rt.alloc(), &Calls, row)?;
        println!(rt; "{name}: {}", judgement.text)?;
        if judgement.verdict != wanted {
            all = false;
        }
    }
    Ok(all)
}

/// Whether all rows of the file are judged so.
pub fn tell_rows(rt: &HostRuntime, name: &str, wanted: Verdict) -> Result<bool> {
    println!(rt; "{name}")?;
    let text = fs::read(rt, name)?;
    match rows_of(rt.alloc(), &text) {
        Ok(rows) => tell_each(rt, &rows, wanted),
        Err(Trouble::Line(line, why)) => {
            println!(rt; "{name}:{line}: {why}")?;
            Ok(false)
        }
        Err(_) => Err(anyhow!("no memory")),
    }
}
