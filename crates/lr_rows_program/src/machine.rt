// Calls of the host on the machine, each a word with its words, as `"make /tmp/a mode 600"`. It proves nothing of the
// machine: `demo/host-calls` makes them on a real directory and compares what they leave.
use anyhow::Result;
use lr_adapt::RealHost;
use lr_host::Host;
use lr_rows_host::called;
use lr_rows_line::{Trouble, words_of};
use lr_rows_read::Cursor;
use std::alloc::Global;

/// The machine.
pub type Machine = RealHost<HostRuntime>;

// What the call answers that the word names: `end` is one too.
fn answer(host: &mut Machine, cursor: &mut Cursor) -> Result<Vec<u8>, Trouble> {
    let word = cursor.word()?;
    if word == b"end".as_slice() {
        host.end();
        return Ok(Vec::from_slice(cursor.alloc, b"done\n")?);
    }
    match called(host, cursor, word)? {
        Some(answer) => Ok(answer),
        None => Err(Trouble::Odd("no such call")),
    }
}

// What the call answers that the text writes.
fn answer_of(alloc: Global, host: &mut Machine, text: &[u8]) -> Result<Vec<u8>, Trouble> {
    let words = words_of(alloc, text)?;
    let mut cursor = Cursor {
        alloc,
        words: &words,
        taken: 0,
    };
    let answer = answer(host, &mut cursor)?;
    if cursor.is_done() {
        Ok(answer)
    } else {
        Err(Trouble::Odd("a word too many"))
    }
}

/// Makes the call, and prints what it answers, or why the word is none. No answer is wrong here.
pub fn tell_call(rt: &HostRuntime, host: &mut Machine, word: &str) -> Result<bool> {
    match answer_of(rt.alloc(), host, word.as_bytes()) {
        Ok(answer) => print!(rt; "{}", str::from_utf8(&answer).unwrap_or("no text\n"))?,
        Err(Trouble::Odd(why)) => println!(rt; "{why}")?,
        Err(_) => println!(rt; "no memory")?,
    }
    Ok(true)
}
