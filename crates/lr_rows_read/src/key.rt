// The words that lines of rows begin with.
use lr_rows_line::Trouble;

/// A line of the opening.
#[derive(Clone, Copy)]
pub enum StartKey {
    File,
    Conf,
    Dir,
    NoDir,
    Other,
    Ends,
    Piece,
    Name,
    Nameless,
    Hold,
}

/// A line of what is done before a call.
#[derive(Clone, Copy)]
pub enum DeedKey {
    Fail,
    Attach,
    Feed,
    Flush,
    Detach,
    Anew,
    Lock,
    Unlock,
    Revive,
    Cut,
    NoCut,
}

/// A line of a call, or of how the row is played.
#[derive(Clone, Copy)]
pub enum CallKey {
    Call,
    CallBare,
    Ask,
    Now,
    FailPut,
    EachCallFails,
    EachStopAndCut,
    EachPutFails,
    EachBeginning,
    RandomConf,
    Says,
}

/// A line of what is wanted of a call.
#[derive(Clone, Copy)]
pub enum WantKey {
    Status,
    Left,
    LeftDir,
    Once,
    Most,
    Some,
    Prints,
    PrintsAny,
    ReportAny,
    ChangesNothing,
    CallsNothing,
    LeftAlone,
    Lines,
    TellsOut,
}

/// What the first word of a line says.
#[derive(Clone, Copy)]
pub enum Key {
    Start(StartKey),
    Deed(DeedKey),
    Call(CallKey),
    Want(WantKey),
}

static KEYS: [(&[u8], Key); 46] = [
    (b"file", Key::Start(StartKey::File)),
    (b"conf", Key::Start(StartKey::Conf)),
    (b"dir", Key::Start(StartKey::Dir)),
    (b"no-dir", Key::Start(StartKey::NoDir)),
    (b"other", Key::Start(StartKey::Other)),
    (b"ends", Key::Start(StartKey::Ends)),
    (b"piece", Key::Start(StartKey::Piece)),
    (b"name", Key::Start(StartKey::Name)),
    (b"nameless", Key::Start(StartKey::Nameless)),
    (b"hold", Key::Start(StartKey::Hold)),
    (b"fail", Key::Deed(DeedKey::Fail)),
    (b"attach", Key::Deed(DeedKey::Attach)),
    (b"feed", Key::Deed(DeedKey::Feed)),
    (b"flush", Key::Deed(DeedKey::Flush)),
    (b"detach", Key::Deed(DeedKey::Detach)),
    (b"anew", Key::Deed(DeedKey::Anew)),
    (b"lock", Key::Deed(DeedKey::Lock)),
    (b"unlock", Key::Deed(DeedKey::Unlock)),
    (b"revive", Key::Deed(DeedKey::Revive)),
    (b"cut", Key::Deed(DeedKey::Cut)),
    (b"no-cut", Key::Deed(DeedKey::NoCut)),
    (b"call", Key::Call(CallKey::Call)),
    (b"call-bare", Key::Call(CallKey::CallBare)),
    (b"ask", Key::Call(CallKey::Ask)),
    (b"now", Key::Call(CallKey::Now)),
    (b"fail-put", Key::Call(CallKey::FailPut)),
    (b"each-call-fails", Key::Call(CallKey::EachCallFails)),
    (b"each-stop-and-cut", Key::Call(CallKey::EachStopAndCut)),
    (b"each-put-fails", Key::Call(CallKey::EachPutFails)),
    (b"each-beginning", Key::Call(CallKey::EachBeginning)),
    (b"random-conf", Key::Call(CallKey::RandomConf)),
    (b"says", Key::Call(CallKey::Says)),
    (b"status", Key::Want(WantKey::Status)),
    (b"left", Key::Want(WantKey::Left)),
    (b"left-dir", Key::Want(WantKey::LeftDir)),
    (b"once", Key::Want(WantKey::Once)),
    (b"most", Key::Want(WantKey::Most)),
    (b"some", Key::Want(WantKey::Some)),
    (b"prints", Key::Want(WantKey::Prints)),
    (b"prints-any", Key::Want(WantKey::PrintsAny)),
    (b"report-any", Key::Want(WantKey::ReportAny)),
    (b"changes-nothing", Key::Want(WantKey::ChangesNothing)),
    (b"calls-nothing", Key::Want(WantKey::CallsNothing)),
    (b"left-alone", Key::Want(WantKey::LeftAlone)),
    (b"lines", Key::Want(WantKey::Lines)),
    (b"tells-out", Key::Want(WantKey::TellsOut)),
];

/// The key that the word is.
pub fn key_of(word: &[u8]) -> Result<Key, Trouble> {
    for (text, key) in &KEYS {
        if *text == word {
            return Ok(*key);
        }
    }
    Err(Trouble::Odd("no such line"))
}
