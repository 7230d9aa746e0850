// The walk through a journal, which finds the generations.
ghost use Rattle.std.specs.Prelude.{◌≡◌, List, All, None, IfOk, OnOk};
ghost use Rattle.lr_host.specs.World.{Past, Opens, ◌▸◌, past};
ghost use Rattle.lr_host.specs.Opening.{IsValid, IsJournal};
ghost use Rattle.lr_host.specs.Sets.{LogSet};
ghost use Rattle.lr_nights.specs.Summary.{AreSetsOf, logs_of};
ghost use Rattle.lr_nights.specs.Walk.{IsWalk, AreGone, may_rename};

use crate::marking::{mark_logs, mark_names, unmark_names};
use crate::marks::count_marks;
use crate::walk::Walk;
use lr_disk::Replay;
use lr_family::Family;
use lr_host::{Entry, Journal, Opening};
use lr_rules::Memory;
use std::alloc::Global;

// Whether it may change what paths name.
fn renames(entry: &Entry) -> bool
    ensures { result ≡ may_rename entry.now }
{
    match entry {
        Entry::Attach {
            writer: _,
            path: _,
            at: _,
        } => true,
        Entry::Renames { from: _, to: _ } => true,
        Entry::Makes { path: _, mode: _ } => true,
        Entry::Unlinks { path: _ } => true,
        Entry::SyncsDir { path: _ } => true,
        Entry::MakesDir { path: _, mode: _ } => true,
        Entry::Cut {
            kept: _,
            lengths: _,
        } => true,
        _ => false,
    }
}

// The walk at the opening.
fn begin(alloc: Global, opening: &Opening, logs: &[Family]) -> Result<Walk, Memory>
    requires valid { IsValid opening.now }
    requires numbered { All (λ f. f.naming.dated ≡ None) logs.now }
    ensures { IfOk result (λ walk. (sets : List LogSet) → AreSetsOf (logs_of logs.now) sets
        → IsWalk sets (Opens opening.now) walk) }
{
    let mut walk = Walk {
        replay: Replay::new(alloc, opening)?,
        marks: Vec::new(alloc),
    };
    mark_names(&mut walk.marks, walk.replay.named(), logs)?;
    Ok(walk)
}

// Goes one entry on.
fn follow(walk: &mut Walk, entry: &Entry, logs: &[Family]) -> Result<(), Memory>
    ensures { OnOk result ((sets : List LogSet) (p : Past) → AreSetsOf (logs_of logs.now) sets → IsWalk sets p walk.old
        → IsWalk sets (p ▸ entry.now) walk.new) }
{
    walk.replay.follow(entry)?;
    if !renames(entry) {
        return Ok(());
    }
    mark_logs(&mut walk.marks, &walk.replay, logs)?;
    Ok(())
}

/// The walk through the whole journal.
pub fn walk_through(alloc: Global, journal: &Journal, logs: &[Family]) -> Result<Walk, Memory>
    requires journal { IsJournal (past journal.now) }
    requires numbered { All (λ f. f.naming.dated ≡ None) logs.now }
    ensures { IfOk result (λ walk. (sets : List LogSet) → AreSetsOf (logs_of logs.now) sets → IsWalk sets (past journal.now) walk) }
{
    let mut walk = begin(alloc, &journal.opening, logs)?;
    let entries = journal.entries.as_slice();
    for entry in entries {
        follow(&mut walk, entry, logs)?;
    }
    Ok(walk)
}

/// How many generations have no name. Their marks alone are left.
pub fn count_gone(walk: &mut Walk) -> u64
    ensures { (sets : List LogSet) (p : Past) → IsWalk sets p walk.old → AreGone sets p result }
{
    unmark_names(&mut walk.marks, walk.replay.named());
    count_marks(&walk.marks)
}
