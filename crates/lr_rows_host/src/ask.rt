// The calls that a row can ask for, by their names.
use crate::aside::set_log_aside;
use crate::calls::{
    OnFile, append, begin, list, look, make, on_file, read, rename, run, run_with, sync_dir,
};
use crate::cut::{cut, cut_case};
use crate::finishing::finish_log;
use crate::tally::{Tally, count};
use crate::telling::Telling;
use lr_memhost::MemHost;
use lr_rows_line::Trouble;
use lr_rows_read::Cursor;

// A call of any host.
#[derive(Clone, Copy)]
enum Call {
    Look,
    List,
    Read,
    Run,
    RunWith,
    Rename,
    Make(bool),
    Append,
    OnFile(OnFile),
    SyncDir,
    Begin(bool),
}

static CALLS: [(&[u8], Call); 15] = [
    (b"look", Call::Look),
    (b"list", Call::List),
    (b"read", Call::Read),
    (b"run", Call::Run),
    (b"run-with", Call::RunWith),
    (b"rename", Call::Rename),
    (b"make", Call::Make(false)),
    (b"make-dir", Call::Make(true)),
    (b"append", Call::Append),
    (b"truncate", Call::OnFile(OnFile::Truncate)),
    (b"unlink", Call::OnFile(OnFile::Unlink)),
    (b"sync-file", Call::OnFile(OnFile::Sync)),
    (b"sync-dir", Call::SyncDir),
    (b"begin", Call::Begin(false)),
    (b"begin-and-end", Call::Begin(true)),
];

fn answer<H: Telling>(host: &mut H, call: Call, cursor: &mut Cursor) -> Result<Vec<u8>, Trouble> {
    match call {
        Call::Look => look(host, cursor),
        Call::List => list(host, cursor),
        Call::Read => read(host, cursor),
        Call::Run => run(host, cursor),
        Call::RunWith => run_with(host, cursor),
        Call::Rename => rename(host, cursor),
        Call::Make(is_dir) => make(host, cursor, is_dir),
        Call::Append => append(host, cursor),
        Call::OnFile(what) => on_file(host, cursor, what),
        Call::SyncDir => sync_dir(host, cursor),
        Call::Begin(ends) => begin(host, cursor, ends),
    }
}

/// What the host answers to the call that the word names, where it is one of a host; a line each.
pub fn called<H: Telling>(
    host: &mut H,
    cursor: &mut Cursor,
    word: &[u8],
) -> Result<Option<Vec<u8>>, Trouble> {
    for (name, call) in &CALLS {
        if *name == word {
            return Ok(Some(answer(host, *call, cursor)?));
        }
    }
    Ok(None)
}

// What a row asks of the host in memory besides.
#[derive(Clone, Copy)]
enum Ask {
    Count(Tally),
    Cut,
    CutCase,
    SetAside,
    Finish,
}

static ASKS: [(&[u8], Ask); 7] = [
    (b"unsynced", Ask::Count(Tally::Unsynced)),
    (b"starved", Ask::Count(Tally::Starved)),
    (b"entries", Ask::Count(Tally::Entries)),
    (b"cut", Ask::Cut),
    (b"cut-case", Ask::CutCase),
    (b"set-aside", Ask::SetAside),
    (b"finish", Ask::Finish),
];

fn told(host: &mut MemHost, ask: Ask, cursor: &mut Cursor) -> Result<Vec<u8>, Trouble> {
    match ask {
        Ask::Count(what) => count(host, cursor.alloc, what),
        Ask::Cut => cut(host, cursor),
        Ask::CutCase => cut_case(cursor),
        Ask::SetAside => set_log_aside(host, cursor),
        Ask::Finish => finish_log(host, cursor),
    }
}

/// What the host in memory answers to what the word names, where a row can ask for it; a line each.
pub fn asked(
    host: &mut MemHost,
    cursor: &mut Cursor,
    word: &[u8],
) -> Result<Option<Vec<u8>>, Trouble> {
    for (name, ask) in &ASKS {
        if *name == word {
            return Ok(Some(told(host, *ask, cursor)?));
        }
    }
    called(host, cursor, word)
}
