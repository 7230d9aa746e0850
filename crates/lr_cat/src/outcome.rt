// How a call ends.
ghost use Rattle.std.specs.Prelude.{◌≡◌};
ghost use Rattle.lr_cat.specs.Outcome.{cat_outcome, cat_status_of};

use lr_report::{Outcome, Report};

/// How a call ends.
#[derive(Drop)]
pub enum CatOutcome {
    /// The log's history was read, with this report: all of it where that has no fault but those of the configuration. Then
    /// this is true where a run that broke off had set the log aside, so that it waits at `LOG.tmp` for the next rotation.
    Done(Report, bool),
    /// The words of the command line aren't `[-s FILE] CONF LOG`.
    BadWords,
    /// No definition gives the log.
    NoLog,
    /// Another run holds the lock.
    Held,
    /// There was no memory.
    OutOfMemory,
}

/// The exit status: 0 for a call without faults, 1 for one with faults, 2 for bad words, 3 for a lock that is held, 4 for want
/// of memory, 5 for a log that no definition gives.
pub fn cat_status(outcome: &CatOutcome) -> u8
    ensures { result ≡ cat_status_of outcome.now }
{
    match outcome {
        CatOutcome::Done(report, _) => {
            if report.faults.as_slice().is_empty() {
                0
            } else {
                1
            }
        }
        CatOutcome::BadWords => 2,
        CatOutcome::NoLog => 5,
        CatOutcome::Held => 3,
        CatOutcome::OutOfMemory => 4,
    }
}

/// The outcome of a call whose log a definition gives, or that didn't come so far.
pub fn cat_outcome(outcome: Outcome) -> CatOutcome
    ensures { result ≡ cat_outcome outcome }
{
    match outcome {
        Outcome::Done(report) => CatOutcome::Done(report, false),
        Outcome::BadWords => CatOutcome::BadWords,
        Outcome::Held => CatOutcome::Held,
        Outcome::OutOfMemory => CatOutcome::OutOfMemory,
    }
}
