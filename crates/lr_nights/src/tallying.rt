// The numbers of a journal, all together.
ghost use Rattle.std.specs.Prelude.{◌≡◌, List, All, None, IfOk};
ghost use Rattle.lr_rules.specs.Path.{path_fault};
ghost use Rattle.lr_host.specs.World.{Past, past};
ghost use Rattle.lr_host.specs.Sets.{LogSet};
ghost use Rattle.lr_host.specs.Opening.{IsJournal};
ghost use Rattle.lr_nights.specs.Summary.{IsSummary, AreSetsOf, logs_of};
ghost use Rattle.lr_nights.specs.Walk.{IsWalk, IsStanding, AreGone};

use crate::files::count_files;
use crate::rotations::begun_of;
use crate::runs::runs_of;
use crate::standing::Standing;
use crate::summary::Summary;
use crate::walk::Walk;
use crate::walking::{count_gone, walk_through};
use lr_family::Family;
use lr_host::Journal;
use lr_rules::Memory;
use std::alloc::Global;

// What is known of a path once it was looked at: it is one.
fn look_at_paths(logs: &[Family])
    ensures { All (λ f. path_fault f.log ≡ None) logs.now }
{
    for log in logs {
        let _ = log.log().bytes();
    }
}

// What stands at the end of the walk, and how many generations are gone.
fn end_of(walk: &mut Walk, logs: &[Family]) -> Result<(Standing, u64), Memory>
    requires { All (λ f. f.naming.dated ≡ None) logs.now }
    ensures { IfOk result (λ end. (sets : List LogSet) (p : Past) → AreSetsOf (logs_of logs.now) sets → IsWalk sets p walk.old
        → IsStanding sets p end.0 × AreGone sets p end.1) }
{
    let standing = count_files(&walk.replay, logs)?;
    let released = count_gone(walk);
    Ok((standing, released))
}

/// The numbers of this journal, of these logs, whose members are numbered. `Memory` is also the answer where a number is too
/// large for its field.
pub fn tally(
    alloc: Global,
    journal: &Journal,
    logs: &[Family],
    nights: u32,
) -> Result<Summary, Memory>
    requires journal { IsJournal (past journal.now) }
    requires numbered { All (λ f. f.naming.dated ≡ None) logs.now }
    ensures summary { IfOk result (IsSummary (logs_of logs.now) nights (past journal.now)) }
{
    look_at_paths(logs);
    let entries = journal.entries.as_slice();
    let runs = runs_of(entries)?;
    let begun = begun_of(entries, logs)?;
    let mut walk = walk_through(alloc, journal, logs)?;
    let end = end_of(&mut walk, logs);
    drop(walk);
    let end = end?;
    Ok(Summary {
        nights,
        runs,
        begun,
        files: end.0.files,
        bytes: end.0.bytes,
        released: end.1,
    })
}
