// Which files are marked: those that logs and members name.
ghost use Rattle.std.specs.Prelude.{◌≡◌, ℕ, List, ◌||◌, ◌&&◌, not, All, None, OnOk};
ghost use Rattle.lr_host.specs.World.{World, is_file};
ghost use Rattle.lr_host.specs.Sets.{LogSet};
ghost use Rattle.lr_disk.specs.State.{ShowsWorld};
ghost use Rattle.lr_nights.specs.Summary.{AreSetsOf, logs_of, in_one};
ghost use Rattle.lr_nights.specs.Marks.{is_marked, is_a_log, is_of_logs, has_name};

use crate::marks::{mark, unmark};
use crate::names::is_of_one;
use lr_disk::Replay;
use lr_family::Family;
use lr_host::Thing;
use lr_rules::{Memory, Path};

/// Marks each file that a log names.
pub fn mark_logs(marks: &mut Vec<bool>, replay: &Replay, logs: &[Family]) -> Result<(), Memory>
    ensures { OnOk result ((w : World) → ShowsWorld replay.now w → (g : ℕ)
        → is_marked marks.new.items g ≡ (is_marked marks.old.items g || is_a_log w logs.now g)) }
{
    for log in logs {
        mark(marks, replay.thing(log.log()))?;
    }
    Ok(())
}

// Marks the file that the path names, if it is a log or a member.
fn mark_name(marks: &mut Vec<bool>, name: &(Path, Thing), logs: &[Family]) -> Result<(), Memory>
    requires { All (λ f. f.naming.dated ≡ None) logs.now }
    ensures { OnOk result ((sets : List LogSet) → AreSetsOf (logs_of logs.now) sets → (g : ℕ)
        → is_marked marks.new.items g ≡ (is_marked marks.old.items g || (in_one sets name.now.0 && is_file name.now.1 g))) }
{
    if !is_of_one(logs, &name.0) {
        return Ok(());
    }
    mark(marks, name.1)?;
    Ok(())
}

/// Marks each file that a log or a member names.
pub fn mark_names(
    marks: &mut Vec<bool>,
    named: &[(Path, Thing)],
    logs: &[Family],
) -> Result<(), Memory>
    requires { All (λ f. f.naming.dated ≡ None) logs.now }
    ensures { OnOk result ((sets : List LogSet) → AreSetsOf (logs_of logs.now) sets → (g : ℕ)
        → is_marked marks.new.items g ≡ (is_marked marks.old.items g || is_of_logs sets named.now g)) }
{
    for name in named {
        mark_name(marks, name, logs)?;
    }
    Ok(())
}

/// Takes the mark of each file that is named.
pub fn unmark_names(marks: &mut Vec<bool>, named: &[(Path, Thing)])
    ensures { (g : ℕ) → is_marked marks.new.items g ≡ (is_marked marks.old.items g && not (has_name named.now g)) }
{
    for name in named {
        unmark(marks, name.1);
    }
}
