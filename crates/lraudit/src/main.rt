//! The program: tells of each file beside the logs of a configuration what it is, and which files the next run with `-f` removes,
//! as `lraudit CONF.. | grep 'next run removes'`. It only looks: it takes no lock and reads no state.
//!
//! It ends with 0 where there was no fault, with 1 where there was one, with 2 for other words, and with 4 for want of memory.
//! Standard output gets the lines of the audit and those of notices and faults, or one line that says why there is no report.
//! Standard error gets a line for each call that failed, with the system's reason, and the usage behind other words. `--help` and
//! `--version`, each alone, are answered here. The time zone is that of `logrotate`.
//! The contract above it is that of `lr_audit::lraudit`; begin there.
#![tactic(auto)]

mod said;

use crate::said::USAGE;
use lr_adapt::{RealHost, RealSink};
use lr_audit::lraudit;
use lr_given::{asked_of, ended, outcome_of, seconds, tells_itself, words_given};
use lr_host::Sink;
use lr_report::{Outcome, printed};
use lr_rules::Text;
use std::process::ExitCode;

fn run<K: Sink>(rt: &HostRuntime, words: &[Text], out: &mut K) -> Outcome {
    let asked = match asked_of(rt, rt.alloc()) {
        Ok(asked) => asked,
        Err(stop) => return printed(outcome_of(stop), out),
    };
    let Ok(files) = rt.clone() else {
        return printed(Outcome::OutOfMemory, out);
    };
    let mut host = RealHost::to_read(files);
    lraudit(
        rt.alloc(),
        words,
        &asked.here,
        &asked.zone,
        seconds(rt),
        &mut host,
        out,
    )
}

fn answered<K: Sink>(rt: &HostRuntime, words: &[Text], out: &mut K) -> u8 {
    if tells_itself(rt, words, "lraudit", USAGE) {
        return 0;
    }
    ended(rt, &run(rt, words, out), USAGE)
}

fn main(rt: HostRuntime) -> ExitCode {
    let mut out = RealSink::new(rt.stdout());
    ExitCode::from(match words_given(&rt, rt.alloc()) {
        Ok(words) => answered(&rt, &words, &mut out),
        Err(stop) => ended(&rt, &printed(outcome_of(stop), &mut out), USAGE),
    })
}
