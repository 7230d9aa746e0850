//! Plays worked rows and tables, and makes calls of the host on the machine. `docs/ROWS.md` says how rows and tables are
//! written.
//!
//! Its words name files: of tables where they end with `.table`, else of rows. Behind the word `-wrong` stand files whose
//! rows and lines want what isn't so: each has to differ, or where it is a line of a table to be refused. Behind `-refused`
//! stand files whose rows can't be read or played: each has to be refused. It ends with 0 where all is as it should be.
//!
//! Behind the word `-machine` each word is a call on the machine, for which a line is printed.
#![tactic(auto)]

mod cat;
mod machine;
mod rows;
mod tables;

use anyhow::Result;
use lr_adapt::RealHost;
use lr_rows_play::Verdict;
use machine::{Machine, tell_call};
use rows::tell_rows;
use std::env;
use std::process::ExitCode;
use tables::tell_table;

// What the words are that stand behind another.
#[derive(Clone, Copy)]
enum Words {
    // Files whose rows are to be judged so.
    Files(Verdict),
    Calls,
}

// What this word says of those behind it.
fn said_by(word: &str) -> Option<Words> {
    match word {
        "-wrong" => Some(Words::Files(Verdict::Differs)),
        "-refused" => Some(Words::Files(Verdict::Refused)),
        "-machine" => Some(Words::Calls),
        _ => None,
    }
}

// Whether what the word names is as it should be.
fn tell_word(rt: &HostRuntime, host: &mut Machine, words: Words, word: &str) -> Result<bool> {
    match words {
        Words::Files(wanted) if word.ends_with(".table") => {
            tell_table(rt, word, wanted != Verdict::Good)
        }
        Words::Files(wanted) => tell_rows(rt, word, wanted),
        Words::Calls => tell_call(rt, host, word),
    }
}

fn tell_all(rt: &HostRuntime, host: &mut Machine) -> Result<ExitCode> {
    let mut all = true;
    let mut words = Words::Files(Verdict::Good);
    for word in env::args(rt)?.skip(1) {
        match said_by(word.as_str()) {
            Some(Words::Calls) => words = Words::Calls,
            Some(files) => {
                println!(rt; "{word}")?;
                words = files;
            }
            None => all = tell_word(rt, host, words, word.as_str())? && all,
        }
    }
    Ok(ExitCode::from(if all { 0 } else { 1 }))
}

fn main(rt: HostRuntime) -> Result<ExitCode> {
    let mut host = RealHost::new(rt.clone()?);
    tell_all(&rt, &mut host)
}
