//! The program: prints a log with all its history, the oldest line first, as `lrcat CONF LOG | grep ERROR`.
//!
//! Standard output gets the bytes of the log's rotated files and of the log, and nothing else. Standard error gets a line for each
//! notice and each fault, or one line that says why nothing was read; a line for each call that failed, with the system's
//! reason; and the usage behind other words. It ends with 0 where there was no fault, with 1 where there was one (what came is a
//! first part then, unless the fault is of a line of the configuration), with 2 for other words, with 3 where another run holds
//! the lock, with 4 for want of memory, and with 5 where no definition gives the log. `--help` and `--version`, each alone, are
//! answered here.
//! The contract above it is that of `lr_cat::lrcat`; begin there.
#![tactic(auto)]

mod said;

use crate::said::USAGE;
use lr_adapt::{RealHost, RealSink};
use lr_cat::{CatOutcome, cat_status, lrcat};
use lr_given::{here_given, outcome_of, seconds, tells_itself, words_given};
use lr_host::Sink;
use lr_report::{Outcome, printed, status};
use lr_rules::Text;
use std::process::ExitCode;

// The status of a call for which there is nothing to read, which is told.
fn nothing<N: Sink>(outcome: Outcome, notes: &mut N) -> u8 {
    status(&printed(outcome, notes))
}

// The status of a call. Behind bad words the usage is told, on standard error.
fn ended(rt: &HostRuntime, outcome: &CatOutcome) -> u8 {
    if let CatOutcome::BadWords = outcome {
        let _ = eprint!(rt; "{USAGE}");
    }
    cat_status(outcome)
}

fn run<N: Sink>(rt: &HostRuntime, words: &[Text], notes: &mut N) -> u8 {
    let here = match here_given(rt, rt.alloc()) {
        Ok(here) => here,
        Err(stop) => return nothing(outcome_of(stop), notes),
    };
    let Ok(files) = rt.clone() else {
        return nothing(Outcome::OutOfMemory, notes);
    };
    let mut host = RealHost::to_read(files);
    let mut out = RealSink::new(rt.stdout());
    let outcome = lrcat(
        rt.alloc(),
        words,
        &here,
        seconds(rt),
        &mut host,
        &mut out,
        notes,
    );
    ended(rt, &outcome)
}

fn answered<N: Sink>(rt: &HostRuntime, words: &[Text], notes: &mut N) -> u8 {
    if tells_itself(rt, words, "lrcat", USAGE) {
        return 0;
    }
    run(rt, words, notes)
}

fn main(rt: HostRuntime) -> ExitCode {
    let mut notes = RealSink::new(rt.stderr());
    ExitCode::from(match words_given(&rt, rt.alloc()) {
        Ok(words) => answered(&rt, &words, &mut notes),
        Err(stop) => nothing(outcome_of(stop), &mut notes),
    })
}
