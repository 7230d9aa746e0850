// Answers as texts, a line for each thing that is told.
use lr_host::CallFault;
use lr_rows_line::Trouble;
use lr_rules::{CallKind, Path};
use std::alloc::{AllocError, Global};

/// Adds a line.
pub fn add(into: &mut Vec<u8>, line: &str) -> Result<(), AllocError> {
    into.extend_from_slice(line.as_bytes())?;
    Ok(into.push(b'\n')?)
}

/// One line.
pub fn said(alloc: Global, line: &str) -> Result<Vec<u8>, Trouble> {
    let mut text = Vec::new(alloc);
    add(&mut text, line)?;
    Ok(text)
}

/// The line of a word and a path.
pub fn said_path(alloc: Global, word: &str, path: &Path) -> Result<Vec<u8>, Trouble> {
    let text = format!(in alloc; "{word} {}", path.as_str())?;
    said(alloc, text.as_str())
}

/// The line of a call that failed.
pub fn failed_call(alloc: Global, kind: CallKind, path: &Path) -> Result<Vec<u8>, Trouble> {
    let text = format!(in alloc; "{kind:?} failed: {}", path.as_str())?;
    said(alloc, text.as_str())
}

/// The line of a number.
pub fn number(alloc: Global, number: u64) -> Result<Vec<u8>, Trouble> {
    let text = format!(in alloc; "{number}")?;
    said(alloc, text.as_str())
}

/// `done`, or `failed`.
pub fn done(alloc: Global, got: Result<(), CallFault>) -> Result<Vec<u8>, Trouble> {
    match got {
        Ok(()) => said(alloc, "done"),
        Err(CallFault::Failed) => said(alloc, "failed"),
    }
}

/// `yes`, `no`, or `failed`.
pub fn yes(alloc: Global, got: Result<bool, CallFault>) -> Result<Vec<u8>, Trouble> {
    match got {
        Ok(true) => said(alloc, "yes"),
        Ok(false) => said(alloc, "no"),
        Err(CallFault::Failed) => said(alloc, "failed"),
    }
}
