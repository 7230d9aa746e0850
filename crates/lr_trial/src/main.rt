//! The program `lr_trial N`: thirty nights of `logrotate` over N logs on a disk in memory, where N is 1 to 64. It is for whoever
//! doubts: what is written, when the machine stops and what is kept is drawn from N, so the six numbers that it prints are the
//! same at each run.
//!
//! It ends with 0 where they were printed, with 1 where the output failed, with 2 for other words, of which nothing is printed,
//! and with 4 for want of memory.
//! The contract above it: the numbers are those of the disk's journal, which has a run at each night and in which writers
//! appended just what is drawn. Begin with `trial`.
#![tactic(auto)]

ghost use Rattle.std.specs.Prelude.{◌≤◌};

mod tool;
mod trial;

use crate::trial::trial;
use lr_adapt::RealSink;
use lr_given::{GivenStop, words_given};
use lr_nights::{TrialStop, trial_host, trial_words};
use std::process::ExitCode;

const OUT: u8 = 1;

const BAD_WORDS: u8 = 2;

const NO_MEMORY: u8 = 4;

// The status of a call whose words the machine doesn't give.
fn status_of(stop: GivenStop) -> u8 {
    match stop {
        GivenStop::BadWords => BAD_WORDS,
        GivenStop::Memory => NO_MEMORY,
    }
}

// The month of so many logs; its status.
fn run(rt: &HostRuntime, logs: u32) -> u8
    requires { (1 ≤ logs) × (logs ≤ 64) }
{
    let alloc = rt.alloc();
    let Ok(output) = rt.clone() else {
        return NO_MEMORY;
    };
    let mut out = RealSink::new(output);
    let Ok(mut host) = trial_host(alloc, logs) else {
        return NO_MEMORY;
    };
    match trial(alloc, logs, &mut host, &mut out) {
        Ok(_) => 0,
        Err(TrialStop::Out) => OUT,
        Err(TrialStop::Memory) => NO_MEMORY,
    }
}

fn main(rt: HostRuntime) -> ExitCode {
    let words = match words_given(&rt, rt.alloc()) {
        Ok(words) => words,
        Err(stop) => return ExitCode::from(status_of(stop)),
    };
    match trial_words(&words) {
        Some(logs) => ExitCode::from(run(&rt, logs)),
        None => ExitCode::from(BAD_WORDS),
    }
}
