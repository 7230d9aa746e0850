// What a call of the program answers.
ghost use Rattle.std.specs.Prelude.{◌≡◌};
ghost use Rattle.lr_report.specs.Outcome.{status_of};

use lr_rules::{Fault, Listed, Notice};

/// What there is to say of a run, in order.
#[derive(Drop)]
pub struct Report {
    pub notices: Listed<Notice>,
    pub faults: Listed<Fault>,
}

/// How a call of the program ends.
#[derive(Drop)]
pub enum Outcome {
    /// The run was made, with this report.
    Done(Report),
    /// The words of the command line aren't those of the program.
    BadWords,
    /// Another run holds the lock.
    Held,
    /// There was no memory. Nothing was changed and no program was started, unless a rule has a script or mails: then a program
    /// may have found none, and what was done before it stands.
    OutOfMemory,
}

/// The exit status of the program: 0 for a run without faults, 1 for one with faults, 2 for bad words, 3 for a lock
/// that is held, 4 for want of memory.
pub fn status(outcome: &Outcome) -> u8
    ensures { result ≡ status_of outcome.now }
{
    match outcome {
        Outcome::Done(report) => {
            if report.faults.as_slice().is_empty() {
                0
            } else {
                1
            }
        }
        Outcome::BadWords => 2,
        Outcome::Held => 3,
        Outcome::OutOfMemory => 4,
    }
}
