// The choice among the logs that were found.
ghost use Rattle.std.specs.Prelude.{◌≡◌, length, IfOk};
ghost use Rattle.lr_kept.specs.Begun.{AreBegun};
ghost use Rattle.lr_kept.specs.Chosen.{AreChosen, HaveFormats};
ghost use Rattle.lr_kept.specs.Pairs.{PairsRise, HavePairs};

use crate::barred::bar;
use crate::begun::first_choices;
use crate::choice::Choice;
use crate::fronts::fronts_of;
use crate::members::pass_members;
use crate::pair::Pair;
use crate::pairs::{pairs_of, sort_pairs};
use crate::settling::settle;
use lr_family::Family;
use lr_rules::{Memory, Path};
use std::alloc::Global;

// What comes of the logs, where this came of them by their paths alone, and these are the pairs of them that meet.
fn choose_by(
    logs: &[&Family],
    wild: &[bool],
    reserved: &[Path],
    pairs: &[Pair],
    choices: &mut [Choice],
)
    requires wild { length wild.now ≡ length logs.now }
    requires begun { AreBegun logs.now choices.old }
    requires pairs { HavePairs logs.now choices.old pairs.now }
    requires rising { PairsRise pairs.now }
    requires formats { HaveFormats logs.now }
    ensures { AreChosen logs.now wild.now reserved.now choices.new }
{
    pass_members(logs, wild, pairs, choices);
    bar(logs, reserved, choices);
    settle(choices, pairs);
}

// The pairs of logs that meet, in order of their earlier places.
fn sorted_pairs(alloc: Global, logs: &[&Family], choices: &[Choice]) -> Result<Vec<Pair>, Memory>
    requires { AreBegun logs.now choices.now }
    ensures pairs { IfOk result (λ pairs. HavePairs logs.now choices.now pairs.items) }
    ensures rising { IfOk result (λ pairs. PairsRise pairs.items) }
{
    let fronts = fronts_of(alloc, logs, choices)?;
    let mut pairs = pairs_of(alloc, logs, choices, &fronts)?;
    sort_pairs(&mut pairs);
    Ok(pairs)
}

/// What comes of each log that was found, in order of definitions, then words, then bytes of the path; of each path it is
/// told whether a wildcard gave it. A path that was found before comes again. Of the rest a path that a wildcard gave is
/// passed over where it is that of a member of another log, kept or not. Of the rest a log is passed over of which a name
/// is one of the reserved paths; and of those left one that meets one before it that is kept, with the first such. It takes
/// time n log n for n logs, and for the names that begin as another log's members do; and each log is asked for each
/// reserved path.
pub fn choose(
    alloc: Global,
    logs: &[&Family],
    wild: &[bool],
    reserved: &[Path],
) -> Result<Vec<Choice>, Memory>
    requires wild { length wild.now ≡ length logs.now }
    requires formats { HaveFormats logs.now }
    ensures { IfOk result (λ choices. AreChosen logs.now wild.now reserved.now choices.items) }
{
    let mut choices = first_choices(alloc, logs)?;
    let pairs = sorted_pairs(alloc, logs, &choices)?;
    choose_by(logs, wild, reserved, &pairs, &mut choices);
    Ok(choices)
}
