// What came of a row.
use crate::modes::play_all;
use crate::play::Caller;
use lr_rows_line::Trouble;
use lr_rows_read::Row;
use std::alloc::{AllocError, Global};

/// How a row is judged.
#[derive(Clone, Copy, PartialEq, Eq)]
pub enum Verdict {
    Good,
    Differs,
    /// It can't be read or played.
    Refused,
}

/// How a row is judged, and why, as a text.
#[derive(Drop)]
pub struct Judgement {
    pub verdict: Verdict,
    pub text: String,
}

fn refused(alloc: Global, line: u32, why: &str) -> Result<Judgement, AllocError> {
    Ok(Judgement {
        verdict: Verdict::Refused,
        text: format!(in alloc; "refused, line {line}: {why}")?,
    })
}

fn good(alloc: Global, times: u64) -> Result<Judgement, AllocError> {
    Ok(Judgement {
        verdict: Verdict::Good,
        text: format!(in alloc; "ok, {times}")?,
    })
}

fn different(alloc: Global, differs: &[u8]) -> Result<Judgement, AllocError> {
    let text = str::from_utf8(differs).unwrap_or("?");
    Ok(Judgement {
        verdict: Verdict::Differs,
        text: format!(in alloc; "differs{text}")?,
    })
}

/// Plays the row in its mode: how often it was played, what differs, or why it is refused.
pub fn judge<C: Caller>(alloc: Global, caller: &C, row: &Row) -> Result<Judgement, AllocError> {
    if let Some((line, why)) = row.fault {
        return refused(alloc, line, why);
    }
    match play_all(alloc, caller, row) {
        Ok(came) if came.differs.is_empty() => good(alloc, came.times),
        Ok(came) => different(alloc, &came.differs),
        Err(Trouble::Line(line, why)) => refused(alloc, line, why),
        Err(Trouble::Odd(why)) => refused(alloc, row.line, why),
        Err(Trouble::Memory) => Err(AllocError),
    }
}
