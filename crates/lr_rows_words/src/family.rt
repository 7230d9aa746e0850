// A log with its members: `LOG DIRECTORY BASE EXTENSION NUMBER`, or in place of the newest member's number the stamp of
// dated ones. A stamp that ends with `%n` has serial numbers; `yesterday` or `hour-ago` behind it says which moment it tells.
// A log that is set aside has `aside` last.
ghost use Rattle.std.specs.Prelude.{◌≡◌, true, IfOk};
ghost use Rattle.lr_rules.specs.Limits.{is_format, or_none};

use crate::answers::text;
use lr_family::{Family, are_kin};
use lr_rows_line::{Trouble, small};
use lr_rows_read::Cursor;
use lr_rules::{Back, Format, Naming};
use lr_words::format;

fn stamp(cursor: &mut Cursor, word: &[u8]) -> Result<Format, Trouble>
    ensures { IfOk result (λ stamp. is_format stamp ≡ true) }
{
    let back = if cursor.takes(b"yesterday") {
        Back::Yesterday
    } else if cursor.takes(b"hour-ago") {
        Back::HourAgo
    } else {
        Back::Now
    };
    let serial = word.ends_with(b"%n");
    match format(cursor.alloc, word.strip_suffix(b"%n").unwrap_or(word))? {
        Ok(pieces) => Ok(Format {
            pieces,
            back,
            serial,
        }),
        Err(_) => Err(Trouble::Odd("no format")),
    }
}

// The number of the newest member, or the stamp.
fn numbers(cursor: &mut Cursor) -> Result<(u32, Option<Format>), Trouble>
    ensures { IfOk result (λ said. or_none is_format said.1 ≡ true) }
{
    let word = cursor.word()?;
    match small(word) {
        Ok(start) => Ok((start, None)),
        Err(_) => Ok((1, Some(stamp(cursor, word)?))),
    }
}

fn naming(cursor: &mut Cursor) -> Result<Naming, Trouble>
    ensures { IfOk result (λ naming. or_none is_format naming.dated ≡ true) }
{
    let dir = cursor.path()?;
    let base = text(cursor)?;
    let ext = text(cursor)?;
    let (start, dated) = numbers(cursor)?;
    let aside = cursor.takes(b"aside");
    Ok(Naming {
        dir,
        base,
        ext,
        start,
        dated,
        aside,
    })
}

/// The log of the next words.
pub fn family(cursor: &mut Cursor) -> Result<Family, Trouble>
    ensures { IfOk result (λ family. or_none is_format family.naming.dated ≡ true) }
{
    let log = cursor.path()?;
    let naming = naming(cursor)?;
    if are_kin(&log, &naming) {
        Ok(Family::of(log, naming))
    } else {
        drop(naming);
        Err(Trouble::Odd("these are no family"))
    }
}
