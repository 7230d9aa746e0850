// What each file beside logs is.
ghost use Rattle.std.specs.Prelude.{◌≡◌, ◌≤◌, ◌++◌, ◌∷◌, [], map, length, All, IfOk, OnOk};
ghost use Rattle.lr_chain.specs.Rotation.{is_left};
ghost use Rattle.lr_plan.specs.Planned.{is_seen_file, CanPlan, CanPlanAll};
ghost use Rattle.lr_audited.specs.Lines.{log_file_line, log_line, part_line, numbered_what, what_of, member_lines, waiting_lines};
ghost use Rattle.lr_audited.specs.Lines.{part_lines, family_lines, rule_lines, sets_lines, known_lines};

use crate::line::{Line, What};
use lr_family::{Member, number_at};
use lr_plan::{LogLook, Looks, SetLooks};
use lr_planning::is_file;
use lr_rules::{Count, Memory, Naming, Path, Rule, Rules, aside_path};
use std::alloc::Global;

/// Whether the count leaves no room for a member with so many later ones.
pub fn has_no_room(count: Count, later: u64) -> bool
    ensures { result ≡ is_left count later }
{
    match count {
        Count::Keep(kept) => u64::from(kept) <= later,
        Count::Always => false,
    }
}

// What a numbered member at this place is.
fn numbered_what(count: Count, place: u64) -> What
    ensures { result ≡ numbered_what count place }
{
    if has_no_room(count, place) {
        What::Leftover(place)
    } else {
        What::Member(place)
    }
}

// What a member is that has so many later ones.
fn what_of(naming: &Naming, count: Count, later: usize, member: &Member) -> What
    ensures { result ≡ what_of naming.now.dated count later member.now }
{
    match &naming.dated {
        Some(_) => What::Member(later as u64),
        None => numbered_what(count, u64::from(number_at(member.place))),
    }
}

// Adds the line of a file that is a log's.
fn add_line(
    alloc: Global,
    lines: &mut Vec<Line>,
    path: &Path,
    what: What,
    log: &Path,
) -> Result<(), Memory>
    ensures { OnOk result (lines.new.items ≡ lines.old.items ++ log_file_line path.now what log.now ∷ []) }
{
    let path = path.copy(alloc)?;
    let log = log.copy(alloc)?;
    lines.push(Line {
        path,
        what,
        log: Some(log),
    })?;
    Ok(())
}

// Adds the lines of members.
fn add_members(
    alloc: Global,
    lines: &mut Vec<Line>,
    naming: &Naming,
    count: Count,
    log: &Path,
    members: &[Member],
) -> Result<(), Memory>
    ensures { OnOk result (lines.new.items ≡ lines.old.items ++ member_lines naming.now.dated count log.now 0 members.now) }
{
    let mut later = 0;
    for member in members {
        let what = what_of(naming, count, later, member);
        add_line(alloc, lines, &member.path, what, log)?;
        later += 1;
    }
    Ok(())
}

// Adds the lines of part files.
fn add_parts(alloc: Global, lines: &mut Vec<Line>, log: &Path, parts: &[Path]) -> Result<(), Memory>
    ensures { OnOk result (lines.new.items ≡ lines.old.items ++ map (part_line log.now) parts.now) }
{
    for part in parts {
        add_line(alloc, lines, part, What::Part, log)?;
    }
    Ok(())
}

// Adds the line of a log's file that waits for its copy.
fn add_waiting(alloc: Global, lines: &mut Vec<Line>, look: &LogLook) -> Result<(), Memory>
    requires { length look.now.path ≤ 2048 }
    ensures { OnOk result (lines.new.items ≡ lines.old.items ++ waiting_lines look.now.path look.now.tmp) }
{
    if !is_file(&look.tmp) {
        return Ok(());
    }
    let path = aside_path(alloc, &look.path)?;
    add_line(alloc, lines, &path, What::Part, &look.path)
}

// Adds the lines of a log's part files, and of its file that waits.
fn add_part_lines(alloc: Global, lines: &mut Vec<Line>, look: &LogLook) -> Result<(), Memory>
    requires { length look.now.path ≤ 2048 }
    ensures { OnOk result (lines.new.items ≡ lines.old.items ++ part_lines look.now) }
{
    add_parts(alloc, lines, &look.path, look.stand.parts.as_slice())?;
    add_waiting(alloc, lines, look)
}

// Adds the lines of a log's members, its part files and its file that waits.
fn add_family(
    alloc: Global,
    lines: &mut Vec<Line>,
    rule: &Rule,
    look: &LogLook,
) -> Result<(), Memory>
    requires { CanPlan look.now }
    ensures { OnOk result (lines.new.items ≡ lines.old.items ++ family_lines rule.now look.now) }
{
    let naming = look.family.naming();
    let members = look.stand.members.as_slice();
    add_members(alloc, lines, naming, rule.count, &look.path, members)?;
    add_part_lines(alloc, lines, look)
}

// Adds those of a definition's logs.
fn add_set(
    alloc: Global,
    lines: &mut Vec<Line>,
    rule: &Rule,
    looks: &[LogLook],
) -> Result<(), Memory>
    requires { All CanPlan looks.now }
    ensures { OnOk result (lines.new.items ≡ lines.old.items ++ rule_lines rule.now looks.now) }
{
    for look in looks {
        add_family(alloc, lines, rule, look)?;
    }
    Ok(())
}

// Adds those of all definitions.
fn add_sets(
    alloc: Global,
    lines: &mut Vec<Line>,
    rules: &[Rule],
    sets: &[SetLooks],
) -> Result<(), Memory>
    requires { CanPlanAll rules.now sets.now }
    ensures { OnOk result (lines.new.items ≡ lines.old.items ++ sets_lines rules.now sets.now) }
{
    for at in 0..rules.len() {
        add_set(alloc, lines, &rules[at], sets[at].logs.as_slice())?;
    }
    Ok(())
}

// Adds the lines of logs.
fn add_logs(alloc: Global, lines: &mut Vec<Line>, logs: &[Path]) -> Result<(), Memory>
    ensures { OnOk result (lines.new.items ≡ lines.old.items ++ map log_line logs.now) }
{
    for log in logs {
        add_line(alloc, lines, log, What::Log, log)?;
    }
    Ok(())
}

/// The lines of all that the looks give: the logs that are kept, and of those that were looked at whole the members, part files,
/// and what waits for its copy.
pub fn lines_of(alloc: Global, rules: &Rules, looks: &Looks) -> Result<Vec<Line>, Memory>
    requires { CanPlanAll rules.now.sets looks.now.sets }
    ensures { IfOk result (λ lines. lines.items ≡ known_lines rules.now.sets looks.now) }
{
    let mut lines = Vec::new(alloc);
    add_logs(alloc, &mut lines, looks.kept.as_slice())?;
    let sets = looks.sets.as_slice();
    add_sets(alloc, &mut lines, rules.sets.as_slice(), sets)?;
    Ok(lines)
}
