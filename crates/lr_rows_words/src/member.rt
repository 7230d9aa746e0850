// Names of members, and their places; which logs and paths meet.
ghost use Rattle.std.specs.Prelude.{◌≡◌, true};
ghost use Rattle.lr_rules.specs.Limits.{is_format, or_none};

use crate::answers::{Answer, yes};
use crate::family::family;
use lr_due::{ZoneText, clock_of};
use lr_family::{Family, NameStop, Place, apart, path_is_named_again};
use lr_rows_line::Trouble;
use lr_rows_read::Cursor;
use lr_rules::Path;

fn put_name(made: Result<Path, NameStop>, out: &mut Answer) {
    match made {
        Ok(path) => out.put(path.as_str()),
        Err(NameStop::TooHigh) => out.put("TooHigh"),
        Err(NameStop::Memory) => out.starve(),
    }
}

// `name FAMILY PLACE`: the path at the place of a numbered member.
fn name(family: &Family, cursor: &mut Cursor, out: &mut Answer) -> Result<(), Trouble> {
    let place = cursor.small()?;
    match &family.naming().dated {
        Some(_) => return Err(Trouble::Odd("a number is wanted")),
        None => put_name(family.name_at(cursor.alloc, place), out),
    }
    Ok(())
}

// `place FAMILY PATH`: the place of the path, or the seconds of its stamp and its serial number.
fn place(family: &Family, cursor: &mut Cursor, out: &mut Answer) -> Result<(), Trouble>
    requires { or_none is_format family.now.naming.dated ≡ true }
{
    let path = cursor.path()?;
    match family.place_of(&path) {
        Some(Place::Number(place)) => out.put(place),
        Some(Place::Stamp(seconds, serial)) => out.put(format_args!("{seconds} {serial}")),
        None => out.put("none"),
    }
    Ok(())
}

// `named-again FAMILY PATH`: the name of the place of the path.
fn named_again(family: &Family, cursor: &mut Cursor, out: &mut Answer) -> Result<(), Trouble> {
    let path = cursor.path()?;
    let again = match &family.naming().dated {
        Some(_) => return Err(Trouble::Odd("a number is wanted")),
        None => path_is_named_again(cursor.alloc, family, &path),
    };
    match again {
        Ok(Some(path)) => put_name(Ok(path), out),
        Ok(None) => out.put("none"),
        Err(stop) => put_name(Err(stop), out),
    }
    Ok(())
}

// `dated FAMILY SECONDS SERIAL`: the path of the member with this serial number whose stamp a clock gives in UTC at these
// seconds.
fn dated(family: &Family, cursor: &mut Cursor, out: &mut Answer) -> Result<(), Trouble>
    requires { or_none is_format family.now.naming.dated ≡ true }
{
    let seconds = cursor.seconds()?;
    let serial = cursor.small()?;
    let Ok(clock) = clock_of(cursor.alloc, &ZoneText::Utc, seconds) else {
        return Err(Trouble::Odd("no clock"));
    };
    match &family.naming().dated {
        Some(format) if format.serial => {
            out.put(family.dated(cursor.alloc, &clock, serial)?.as_str());
            Ok(())
        }
        _ => Err(Trouble::Odd("a stamp with serial numbers is wanted")),
    }
}

// `apart FAMILY FAMILY`: whether the two logs are apart.
fn are_apart(one: &Family, cursor: &mut Cursor, out: &mut Answer) -> Result<(), Trouble> {
    let other = family(cursor)?;
    out.put(yes(apart(one, &other)));
    drop(other);
    Ok(())
}

// `meets FAMILY PATH`: whether the log meets the path.
fn meets(family: &Family, cursor: &mut Cursor, out: &mut Answer) -> Result<(), Trouble> {
    let path = cursor.path()?;
    out.put(yes(family.meets(&path)));
    Ok(())
}

fn put_asked(
    name_of_call: &str,
    family: &Family,
    cursor: &mut Cursor,
    out: &mut Answer,
) -> Result<(), Trouble>
    requires { or_none is_format family.now.naming.dated ≡ true }
{
    match name_of_call {
        "name" => name(family, cursor, out),
        "place" => place(family, cursor, out),
        "named-again" => named_again(family, cursor, out),
        "dated" => dated(family, cursor, out),
        "apart" => are_apart(family, cursor, out),
        _ => meets(family, cursor, out),
    }
}

/// The call with this name, of the log of the next words.
pub fn asked(name_of_call: &str, cursor: &mut Cursor, out: &mut Answer) -> Result<(), Trouble> {
    let family = family(cursor)?;
    let put = put_asked(name_of_call, &family, cursor, out);
    drop(family);
    put
}
