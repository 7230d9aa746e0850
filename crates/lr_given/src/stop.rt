// Why the machine gives no words, directory or zone.
ghost use Rattle.std.specs.Prelude.{◌≡◌};

use lr_report::Outcome;
use std::io::ErrorKind;

/// They are no texts or no paths, or there is no memory.
#[derive(Clone, Copy)]
pub enum GivenStop {
    BadWords,
    Memory,
}

pub fn stop_of(kind: ErrorKind) -> GivenStop {
    if kind == ErrorKind::OutOfMemory {
        GivenStop::Memory
    } else {
        GivenStop::BadWords
    }
}

/// The outcome of a call for which there is nothing to do.
pub fn outcome_of(stop: GivenStop) -> Outcome
    ensures bad_words { stop ≡ GivenStop.BadWords → result ≡ Outcome.BadWords }
    ensures memory { stop ≡ GivenStop.Memory → result ≡ Outcome.OutOfMemory }
{
    match stop {
        GivenStop::BadWords => Outcome::BadWords,
        GivenStop::Memory => Outcome::OutOfMemory,
    }
}
