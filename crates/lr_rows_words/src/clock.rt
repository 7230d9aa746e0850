// What clocks in time zones show.
use crate::answers::{Answer, text};
use crate::moment::put_civil;
use lr_due::{Zone, ZoneStop, ZoneText, clock_of, zone_of};
use lr_rows_line::Trouble;
use lr_rows_read::Cursor;
use lr_rules::{Clock, Listed, Moment, PathFault};

// Any seconds, the least and the greatest among them.
fn seconds(word: &[u8]) -> Result<i64, Trouble> {
    match str::from_utf8(word).unwrap_or("").parse::<i64>() {
        Ok(seconds) => Ok(seconds),
        Err(_) => Err(Trouble::Odd("seconds are wanted")),
    }
}

// `utc`, `rule RULE` or `bytes BYTES`.
fn zone(cursor: &mut Cursor) -> Result<ZoneText, Trouble> {
    if cursor.takes(b"utc") {
        return Ok(ZoneText::Utc);
    }
    if cursor.takes(b"rule") {
        return Ok(ZoneText::Rule(text(cursor)?));
    }
    if cursor.takes(b"bytes") {
        return Ok(ZoneText::Bytes(Listed::from_vec(cursor.bytes()?)));
    }
    Err(Trouble::Odd("no such zone"))
}

fn put_moment(moment: &Moment, out: &mut Answer) {
    out.put(moment.seconds);
    out.put(" ");
    put_civil(&moment.civil, out);
}

fn put_clock(clock: &Clock, out: &mut Answer) {
    put_moment(&clock.now, out);
    out.put(", ");
    put_moment(&clock.yesterday, out);
    out.put(", ");
    put_moment(&clock.hour_ago, out);
}

/// `clock SECONDS ZONE`: the moment of the run, that of the day before and that of an hour before, each as seconds and as
/// the zone shows it.
pub fn clock(cursor: &mut Cursor, out: &mut Answer) -> Result<(), Trouble> {
    let seconds = seconds(cursor.word()?)?;
    let zone = zone(cursor)?;
    let shown = clock_of(cursor.alloc, &zone, seconds);
    drop(zone);
    match shown {
        Ok(clock) => put_clock(&clock, out),
        Err(ZoneStop::Range) => out.put("Range"),
        Err(ZoneStop::Refused) => out.put("Refused"),
        Err(ZoneStop::Memory) => out.starve(),
    }
    Ok(())
}

fn put_zone(asked: Result<Zone, PathFault>, out: &mut Answer) {
    match asked {
        Ok(Zone::Utc) => out.put("utc"),
        Ok(Zone::Rule(rule)) => {
            out.put("rule ");
            out.put(rule.as_str());
        }
        Ok(Zone::File(path)) => {
            out.put("file ");
            out.put(path.as_str());
        }
        Err(fault) => out.put(fault),
    }
}

/// `tz [VALUE]`: the zone that a value of the variable TZ asks for, or none.
pub fn tz(cursor: &mut Cursor, out: &mut Answer) -> Result<(), Trouble> {
    if cursor.is_done() {
        put_zone(zone_of(cursor.alloc, None), out);
    } else {
        let value = text(cursor)?;
        put_zone(zone_of(cursor.alloc, Some(&value)), out);
    }
    Ok(())
}
