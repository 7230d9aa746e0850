// Calls of `lrcat` over a disk in memory.
use lr_cat::{CatOutcome, cat_status, lrcat};
use lr_host::Sink;
use lr_memhost::{MemHost, MemSink};
use lr_rows_line::Trouble;
use lr_rows_play::Made;
use lr_rules::{Fault, Path, Text};
use std::alloc::Global;

// Whether the report's last fault is that of the output.
fn tells_out(outcome: &CatOutcome) -> bool {
    match outcome {
        CatOutcome::Done(report, _) => matches!(report.faults.as_slice().last(), Some(Fault::Out)),
        _ => false,
    }
}

// Puts the notes behind what the call put out. A put that fails was to be one of the call's.
fn put_behind(notes: &MemSink, out: &mut MemSink) -> Result<(), Trouble> {
    if notes.bytes().is_empty() {
        return Ok(());
    }
    match out.put(notes.bytes()) {
        Ok(_) => Ok(()),
        Err(_) => Err(Trouble::Odd("the put of the notes fails")),
    }
}

/// Calls it on these words, and puts its notes behind its output.
pub fn make_cat(
    alloc: Global,
    host: &mut MemHost,
    words: &[Text],
    here: &Path,
    now: i64,
    out: &mut MemSink,
) -> Result<Made, Trouble> {
    // What a disk in memory tells is the history of a disk.
    let _disk = host.journal();
    let mut notes = MemSink::new(alloc, Vec::new(alloc));
    let outcome = lrcat(alloc, words, here, now, host, out, &mut notes);
    put_behind(&notes, out)?;
    Ok(Made {
        status: cat_status(&outcome),
        tells_out: tells_out(&outcome),
    })
}
