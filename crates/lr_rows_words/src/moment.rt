// Civil moments, as `2024-1-14-0:5:0`.
use crate::answers::Answer;
use lr_rows_line::{Trouble, number};
use lr_rows_read::Cursor;
use lr_rules::{Civil, Moment};

// The six numbers of the word.
fn parts(word: &[u8]) -> Result<[u64; 6], Trouble> {
    let mut parts = [0u64; 6];
    let mut count = 0;
    for part in word.split(|byte| *byte == b'-' || *byte == b':') {
        if count >= 6 {
            return Err(Trouble::Odd("a moment is wanted"));
        }
        parts[count] = number(part)?;
        count += 1;
    }
    if count < 6 {
        return Err(Trouble::Odd("a moment is wanted"));
    }
    Ok(parts)
}

// A part that is too high is none of a moment either way.
fn byte(part: u64) -> u8 {
    u8::try_from(part).unwrap_or(255)
}

// The moment that the next word writes, where there is one.
fn maybe(cursor: &mut Cursor) -> Result<Option<Civil>, Trouble> {
    let [y, m, d, h, min, s] = parts(cursor.word()?)?;
    let year = i16::try_from(y).unwrap_or(0);
    Ok(Civil::new(year, byte(m), byte(d), byte(h), byte(min), byte(s)))
}

/// The moment that the next word writes.
pub fn civil(cursor: &mut Cursor) -> Result<Civil, Trouble> {
    match maybe(cursor)? {
        Some(civil) => Ok(civil),
        None => Err(Trouble::Odd("a moment is wanted")),
    }
}

/// The moment of a run in UTC.
pub fn now(cursor: &mut Cursor) -> Result<Moment, Trouble> {
    let civil = civil(cursor)?;
    Ok(Moment {
        seconds: civil.seconds(),
        civil,
    })
}

pub fn put_civil(civil: &Civil, out: &mut Answer) {
    let Civil {
        year,
        month,
        day,
        hour,
        minute,
        second,
        ..
    } = *civil;
    out.put(format_args!("{year}-{month}-{day}-{hour}:{minute}:{second}"));
}

/// `seconds MOMENT`: its civil seconds since 1970, or `none` where there is no such moment.
pub fn seconds(cursor: &mut Cursor, out: &mut Answer) -> Result<(), Trouble> {
    match maybe(cursor)? {
        Some(civil) => out.put(civil.seconds()),
        None => out.put("none"),
    }
    Ok(())
}
