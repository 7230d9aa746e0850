// Which matches of wildcards are members of other logs.
ghost use Rattle.std.specs.Prelude.{◌≡◌, ◌↔◌, ◌<◌, true, length};
ghost use Rattle.lr_family.specs.Parts.{IsMember};
ghost use Rattle.lr_kept.specs.Begun.{AreBegun};
ghost use Rattle.lr_kept.specs.Chosen.{HasFormat, HaveFormats, IsMemberOf, IsWild};
ghost use Rattle.lr_kept.specs.Members.{ArePassed, IsFirstFound, Joins, lowered};
ghost use Rattle.lr_kept.specs.Pairs.{HavePairs};

use crate::choice::Choice;
use crate::pair::Pair;
use lr_family::Family;
use lr_rules::Path;

// Whether the path is that of a member of the log.
fn has_member(log: &Family, path: &Path) -> bool
    requires { HasFormat log.now }
    ensures { (result ≡ true) ↔ IsMember log.now.naming path.now }
{
    log.place_of(path).is_some()
}

// Whether a wildcard gave the path at this place, and it is that of a member of the log at the other.
fn is_matched(logs: &[&Family], wild: &[bool], place: usize, log: usize) -> bool
    requires place { place < length logs.now }
    requires log { log < length logs.now }
    requires wild { length wild.now ≡ length logs.now }
    requires formats { HaveFormats logs.now }
    ensures { (result ≡ true) ↔ (IsWild wild.now place × IsMemberOf logs.now log place) }
{
    wild[place] && has_member(logs[log], logs[place].log())
}

// Whether the path at this place wasn't found before.
fn is_first(choices: &[Choice], place: usize) -> bool
    requires { place < length choices.now }
    ensures { (result ≡ true) ↔ IsFirstFound choices.now place }
{
    match choices[place] {
        Choice::Again(_) => false,
        Choice::Kept | Choice::MemberOf(_) | Choice::Reserved(_) | Choice::Meets(_) => true,
    }
}

// It is passed over as a member of this log, or of an earlier one that is known already.
fn lowered(choice: Choice, log: usize) -> Choice
    ensures { result ≡ lowered choice log }
{
    match choice {
        Choice::MemberOf(known) => Choice::MemberOf(log.min(known)),
        Choice::Kept | Choice::Again(_) | Choice::Reserved(_) | Choice::Meets(_) => {
            Choice::MemberOf(log)
        }
    }
}

// Passes over the path at this place as a member of the log at the other, where it is one.
fn join(logs: &[&Family], wild: &[bool], place: usize, log: usize, choices: &mut [Choice])
    requires place { place < length logs.now }
    requires log { log < length logs.now }
    requires wild { length wild.now ≡ length logs.now }
    requires many { length choices.old ≡ length logs.now }
    requires formats { HaveFormats logs.now }
    ensures { Joins logs.now wild.now place log choices.old choices.new }
{
    let are_first = is_first(choices, place) & is_first(choices, log);
    if are_first && is_matched(logs, wild, place, log) {
        choices[place] = lowered(choices[place], log);
    }
}

/// Passes over the paths that wildcards gave and that are members of other logs whose paths weren't found before; of two
/// logs of which a path is a member the first counts.
pub fn pass_members(logs: &[&Family], wild: &[bool], pairs: &[Pair], choices: &mut [Choice])
    requires wild { length wild.now ≡ length logs.now }
    requires begun { AreBegun logs.now choices.old }
    requires pairs { HavePairs logs.now choices.old pairs.now }
    requires formats { HaveFormats logs.now }
    ensures { ArePassed logs.now wild.now choices.new }
{
    for pair in pairs {
        join(logs, wild, pair.later, pair.earlier, choices);
        join(logs, wild, pair.earlier, pair.later, choices);
    }
}
