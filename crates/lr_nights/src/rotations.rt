// How many times runs began the rotation of a log.
ghost use Rattle.std.specs.Prelude.{◌≡◌, ◌<◌, ◌≤◌, ◌+◌, List, All, None, IfOk};
ghost use Rattle.lr_host.specs.declared.journal.Opening.{Opening};
ghost use Rattle.lr_host.specs.World.{Past, Opens, ◌▸◌, then};
ghost use Rattle.lr_host.specs.Sets.{LogSet};
ghost use Rattle.lr_host.specs.Runs.{turns, rotations};
ghost use Rattle.lr_nights.specs.Summary.{IsSetOf, AreSetsOf, logs_of, begun_in};
ghost use Rattle.lr_nights.specs.Counting.{is_start, IsTurning};

use crate::names::is_of;
use crate::turning::Turning;
use lr_family::Family;
use lr_host::Entry;
use lr_rules::Memory;

/// Whether it is the start of a run.
pub fn starts(entry: &Entry) -> bool
    ensures { result ≡ is_start entry.now }
{
    match entry {
        Entry::Starts {
            state: _,
            now: _,
            rules: _,
        } => true,
        _ => false,
    }
}

// Whether it is a rename, an unlink or a make on the log or a member.
fn turns_log(entry: &Entry, log: &Family) -> bool
    requires { log.now.naming.dated ≡ None }
    ensures { (s : LogSet) → IsSetOf (log.now.log, log.now.naming) s → result ≡ turns s entry.now }
{
    match entry {
        Entry::Renames { from, to } => is_of(log, from) || is_of(log, to),
        Entry::Unlinks { path } => is_of(log, path),
        Entry::Makes { path, mode: _ } => is_of(log, path),
        _ => false,
    }
}

// Goes one entry on.
fn turn(turning: &mut Turning, entry: &Entry, log: &Family)
    requires numbered { log.now.naming.dated ≡ None }
    requires room { turning.old.count < 18446744073709551615 }
    ensures turning { (s : LogSet) (p : Past) → IsSetOf (log.now.log, log.now.naming) s → IsTurning s p turning.old
        → IsTurning s (p ▸ entry.now) turning.new }
    ensures bound { turning.new.count ≤ turning.old.count + 1 }
{
    if starts(entry) {
        turning.begun = false;
        return;
    }
    if !turns_log(entry, log) {
        return;
    }
    if turning.begun {
        return;
    }
    turning.begun = true;
    turning.count += 1;
}

// How many times runs began the rotation of the log.
fn rotations_of(entries: &[Entry], log: &Family) -> u64
    requires { log.now.naming.dated ≡ None }
    ensures { (o : Opening) (s : LogSet) → IsSetOf (log.now.log, log.now.naming) s
        → result ≡ rotations s (then (Opens o) entries.now) }
{
    let mut turning = Turning {
        begun: false,
        count: 0,
    };
    for entry in entries {
        turn(&mut turning, entry, log);
    }
    turning.count
}

/// How many times runs began the rotation of one of the logs.
pub fn begun_of(entries: &[Entry], logs: &[Family]) -> Result<u64, Memory>
    requires { All (λ f. f.naming.dated ≡ None) logs.now }
    ensures { IfOk result (λ sum. (o : Opening) (sets : List LogSet) → AreSetsOf (logs_of logs.now) sets
        → sum ≡ begun_in sets (then (Opens o) entries.now)) }
{
    let mut sum: u64 = 0;
    for log in logs {
        let Some(more) = sum.checked_add(rotations_of(entries, log)) else {
            return Err(Memory);
        };
        sum = more;
    }
    Ok(sum)
}
