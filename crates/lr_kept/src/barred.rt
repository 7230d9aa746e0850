// Which logs have a reserved name.
ghost use Rattle.std.specs.Prelude.{◌≡◌, length, MatchOption};
ghost use Rattle.lr_kept.specs.Barred.{AreOpened, HasNoName, IsFirstName, NoneShut, Opens};

use crate::choice::Choice;
use lr_family::Family;
use lr_rules::Path;

// The place of the first of these paths that is one of the log's names.
fn first_name(log: &Family, reserved: &[Path]) -> Option<usize>
    ensures { MatchOption result (HasNoName log.now reserved.now) (λ i. IsFirstName log.now reserved.now i) }
{
    for at in 0..reserved.len() {
        if log.meets(&reserved[at]) {
            return Some(at);
        }
    }
    None
}

// What comes of a log that is kept so far.
fn kept_or_barred(log: &Family, reserved: &[Path]) -> Choice
    ensures { Opens log.now reserved.now Choice.Kept result }
{
    match first_name(log, reserved) {
        Some(at) => Choice::Reserved(at),
        None => Choice::Kept,
    }
}

// What comes of a log of which this came so far.
fn opened(choice: Choice, log: &Family, reserved: &[Path]) -> Choice
    ensures { Opens log.now reserved.now choice result }
{
    match choice {
        Choice::Kept => kept_or_barred(log, reserved),
        Choice::Again(_) | Choice::MemberOf(_) | Choice::Reserved(_) | Choice::Meets(_) => choice,
    }
}

/// Of the logs that are kept so far, those aren't any more of which a name is reserved. Each log is asked for each path.
pub fn bar(logs: &[&Family], reserved: &[Path], choices: &mut [Choice])
    requires many { length choices.old ≡ length logs.now }
    requires begun { NoneShut choices.old }
    ensures { AreOpened logs.now reserved.now choices.old choices.new }
{
    for place in 0..logs.len() {
        choices[place] = opened(choices[place], logs[place], reserved);
    }
}
