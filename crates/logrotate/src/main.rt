//! The program: rotates the logs that a configuration defines.
//!
//! `logrotate CONF..`, or `logrotate -f CONF..` by force, ends with 0 where there was no fault, with 1 where there was one,
//! with 2 for other words, with 3 where another run holds the lock, and with 4 for want of memory. Standard output gets a
//! line for each notice and each fault, or one line that says why there is no report. Standard error gets a line for each call
//! that failed, with the system's reason, and the usage behind other words. `--help` and `--version`, each alone, are answered
//! here.
//!
//! The time zone is that of the variable TZ, which may also be the name of a file below /usr/share/zoneinfo, and where it isn't
//! set that of /etc/localtime.
//! The contract above it is that of `lr_cli::logrotate`; begin there.
#![tactic(auto)]

mod said;

use crate::said::USAGE;
use lr_adapt::{RealHost, RealSink};
use lr_cli::{Outcome, logrotate, printed, status};
use lr_given::{asked_of, ended, outcome_of, seconds, tells_itself, words_given};
use lr_host::Sink;
use lr_rules::Text;
use std::process::ExitCode;

fn run<K: Sink>(rt: &HostRuntime, words: &[Text], out: &mut K) -> Outcome {
    let alloc = rt.alloc();
    let asked = match asked_of(rt, alloc) {
        Ok(asked) => asked,
        Err(stop) => return printed(outcome_of(stop), out),
    };
    let Ok(files) = rt.clone() else {
        return printed(Outcome::OutOfMemory, out);
    };
    let mut host = RealHost::new(files);
    logrotate(
        alloc,
        words,
        &asked.here,
        &asked.zone,
        seconds(rt),
        &mut host,
        out,
    )
}

fn answered<K: Sink>(rt: &HostRuntime, words: &[Text], out: &mut K) -> u8 {
    if tells_itself(rt, words, "logrotate", USAGE) {
        return 0;
    }
    ended(rt, &run(rt, words, out), USAGE)
}

// Without a runtime for it there is no output, so nothing is said then.
fn main(rt: HostRuntime) -> ExitCode {
    let Ok(output) = rt.clone() else {
        return ExitCode::from(status(&Outcome::OutOfMemory));
    };
    let mut out = RealSink::new(output);
    ExitCode::from(match words_given(&rt, rt.alloc()) {
        Ok(words) => answered(&rt, &words, &mut out),
        Err(stop) => ended(&rt, &printed(outcome_of(stop), &mut out), USAGE),
    })
}
