// When logs are due. The words of a line are the criterion; `ifempty` or `notifempty`; minage, minsize and maxsize; the
// size and the age in seconds; the moment of the last rotation and that of the run; `force`. A `-` is none of it.
use crate::answers::{Answer, is_second};
use crate::moment::{civil, now};
use lr_due::{Due, Why, WhyNot, due};
use lr_host::{Kind, Seen};
use lr_rows_line::Trouble;
use lr_rows_read::Cursor;
use lr_rules::{Count, Criterion, Listed, Make, Moment, Path, Rule, Scripts, Way};
use lr_tables::{DueCase, due_cases};
use std::alloc::Global;

// A week turns on Sundays, or has seven days.
fn criterion(cursor: &mut Cursor) -> Result<Criterion, Trouble> {
    match str::from_utf8(cursor.word()?).unwrap_or("") {
        "hourly" => Ok(Criterion::Hourly),
        "daily" => Ok(Criterion::Daily),
        "sundays" => Ok(Criterion::Weekly(0)),
        "seven-days" => Ok(Criterion::Weekly(7)),
        "monthly" => Ok(Criterion::Monthly),
        "yearly" => Ok(Criterion::Yearly),
        "size" => Ok(Criterion::Size(cursor.number()?)),
        _ => Err(Trouble::Odd("no such criterion")),
    }
}

fn maybe(cursor: &mut Cursor) -> Result<Option<u32>, Trouble> {
    if cursor.takes(b"-") {
        return Ok(None);
    }
    Ok(Some(cursor.small()?))
}

// What the definition says, of a log of which nothing is known yet.
fn case_of(cursor: &mut Cursor) -> Result<DueCase, Trouble> {
    let criterion = criterion(cursor)?;
    let ifempty = is_second(cursor, b"notifempty", b"ifempty")?;
    let minage = maybe(cursor)?;
    let minsize = maybe(cursor)?.map(u64::from);
    let maxsize = maybe(cursor)?.map(u64::from);
    Ok(DueCase {
        criterion,
        ifempty,
        minage,
        minsize,
        maxsize,
        size: 0,
        mtime: 0,
        last: None,
        force: false,
        answer: 0,
    })
}

fn name_of(due: Due) -> &'static str {
    match due {
        Due::Yes(Why::Forced) => "Forced",
        Due::Yes(Why::Size) => "Size",
        Due::Yes(Why::MaxSize) => "MaxSize",
        Due::Yes(Why::Calendar) => "Calendar",
        Due::Yes(Why::Future) => "Future",
        Due::No(WhyNot::Young) => "not: Young",
        Due::No(WhyNot::Empty) => "not: Empty",
        Due::No(WhyNot::Small) => "not: Small",
        Due::No(WhyNot::Early) => "not: Early",
    }
}

// What is answered of the case.
fn answer_of(alloc: Global, case: &DueCase, now: &Moment) -> Result<&'static str, Trouble> {
    let file = Path::new(alloc, b"/etc/c")?;
    let rule = Rule {
        file,
        line: 1,
        words: Listed::new(alloc),
        criterion: case.criterion,
        count: Count::Keep(2),
        maxage: None,
        minage: case.minage,
        minsize: case.minsize,
        maxsize: case.maxsize,
        ifempty: case.ifempty,
        missingok: false,
        ignore_duplicates: false,
        start: 1,
        extension: None,
        addextension: None,
        olddir: None,
        createolddir: Make::No,
        way: Way::Rename,
        create: Make::No,
        mail: None,
        mailfirst: false,
        shared: false,
        scripts: Scripts {
            first: None,
            pre: None,
            post: None,
            last: None,
            preremove: None,
        },
        dated: None,
    };
    let seen = Seen {
        kind: Kind::File,
        size: case.size,
        mtime: case.mtime,
        mode: None,
        exposed: false,
    };
    let answer = due(&rule, &seen, case.last, now, case.force);
    // in one step, which is cheaper to check than field by field
    drop(rule);
    Ok(name_of(answer))
}

/// `due CRITERION ..`: why the log is due, or why not.
pub fn is_due(cursor: &mut Cursor, out: &mut Answer) -> Result<(), Trouble> {
    let mut case = case_of(cursor)?;
    case.size = cursor.number()?;
    let age = cursor.seconds()?;
    if !cursor.takes(b"-") {
        case.last = Some(civil(cursor)?);
    }
    let now = now(cursor)?;
    case.mtime = now.seconds.saturating_sub(age);
    case.force = is_second(cursor, b"-", b"force")?;
    out.put(answer_of(cursor.alloc, &case, &now)?);
    Ok(())
}

/// `due-cases NOW`: of each of the cases that cover the lines of the table the line that decides it, and what is answered.
pub fn are_due(cursor: &mut Cursor, out: &mut Answer) -> Result<(), Trouble> {
    let now = now(cursor)?;
    for case in &due_cases().rows {
        let line = case.answer;
        let answer = answer_of(cursor.alloc, case, &now)?;
        out.put(format_args!("{line} {answer};"));
    }
    Ok(())
}
