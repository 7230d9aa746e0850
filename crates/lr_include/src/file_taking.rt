// What the bytes of a file tell, as they are read.
ghost use Rattle.std.specs.Prelude.{◌≡◌, ◌≤◌, ◌<◌, ◌+◌, ◌-◌, ◌^◌, ◌∷◌, ◌++◌, [], ℕ, List, true, false, Ok, take, length, IfOk};
ghost use Rattle.std.specs.Prelude.{OnOk};
ghost use Rattle.lr_lex.specs.Items.{items};
ghost use Rattle.lr_lex.specs.Streams.{StreamStands, still, given, HoldsNone};
ghost use Rattle.lr_include.specs.Taken.{IsUnclosed, KeepsTold, AddsBytes};

use lr_lex::{Item, LexFault, LexKind, Stream};
use lr_rules::Memory;
use std::alloc::Global;

/// What was read of a file so far: what its bytes told, and how many they are.
#[derive(Drop)]
pub struct Taking {
    pub stream: Stream,
    pub told: Vec<Result<Item, LexFault>>,
    pub size: usize,
}

// The first bytes, so many, or all where there are fewer.
fn first(bytes: &[u8], count: usize) -> &[u8]
    ensures { result.now ≡ take count bytes.now }
{
    if count < bytes.len() {
        &bytes[..count]
    } else {
        bytes
    }
}

fn is_memory(kind: LexKind) -> bool
    ensures memory { result ≡ true → kind ≡ LexKind.Memory }
    ensures other { result ≡ false → kind ≡ LexKind.Memory → ⊥ }
{
    match kind {
        LexKind::Memory => true,
        LexKind::LineTooLong | LexKind::NotUtf8 | LexKind::OpenQuote | LexKind::NoEndscript => {
            false
        }
    }
}

impl Taking {
    /// Nothing was read, and no memory is taken.
    pub fn new(alloc: Global) -> Taking
        ensures ready { IsUnclosed result }
        ensures none { result.told.items ≡ [] }
        ensures text { (more : List ℕ) → still result.stream more ≡ items more }
        ensures size { result.size ≡ 0 }
    {
        Taking {
            stream: Stream::new(alloc),
            told: Vec::new(alloc),
            size: 0,
        }
    }

    fn keep(&mut self, told: Result<Item, LexFault>) -> Result<bool, Memory>
        ensures told { IfOk result (λ some. (some ≡ true) × (self.new.told.items ≡ self.old.told.items ++ told ∷ [])) }
        ensures stream { self.new.stream ≡ self.old.stream }
        ensures size { self.new.size ≡ self.old.size }
    {
        self.told.push(told)?;
        Ok(true)
    }

    // Takes in the next item or fault; false where nothing is whole.
    fn next(&mut self) -> Result<bool, Memory>
        requires { StreamStands self.old.stream }
        ensures stands { StreamStands self.new.stream }
        ensures told { IfOk result (λ some. KeepsTold self.old self.new) }
        ensures less { result ≡ Ok true → length (still self.new.stream []) < length (still self.old.stream []) }
        ensures none { result ≡ Ok false → HoldsNone self.new.stream self.old.stream.closed }
        ensures closed { self.new.stream.closed ≡ self.old.stream.closed }
        ensures few { given self.new.stream ≤ given self.old.stream }
        ensures size { self.new.size ≡ self.old.size }
    {
        match self.stream.next() {
            Ok(Some(item)) => self.keep(Ok(item)),
            Ok(None) => Ok(false),
            Err(fault) if is_memory(fault.kind) => Err(Memory),
            Err(fault) => self.keep(Err(fault)),
        }
    }

    // Takes in all that is whole.
    fn take_whole(&mut self) -> Result<(), Memory>
        requires { StreamStands self.old.stream }
        ensures stands { StreamStands self.new.stream }
        ensures told { OnOk result (KeepsTold self.old self.new) }
        ensures none { OnOk result (HoldsNone self.new.stream self.old.stream.closed) }
        ensures closed { self.new.stream.closed ≡ self.old.stream.closed }
        ensures few { given self.new.stream ≤ given self.old.stream }
        ensures size { self.new.size ≡ self.old.size }
    {
        while self.next()? {}
        Ok(())
    }

    fn give(&mut self, piece: &[u8]) -> Result<(), Memory>
        requires ready { IsUnclosed self.old }
        requires few { self.old.size + length piece.now < 2 ^ 32 }
        ensures stands { StreamStands self.new.stream }
        ensures told { OnOk result (AddsBytes self.old self.new piece.now) }
        ensures none { OnOk result (HoldsNone self.new.stream false) }
        ensures unclosed { self.new.stream.closed ≡ false }
        ensures few { OnOk result (given self.new.stream ≤ self.old.size + length piece.now) }
        ensures size { self.new.size ≡ self.old.size }
    {
        self.stream.give(piece)?;
        self.take_whole()
    }

    /// Takes in the bytes that follow, as far as there is room for them, with what is whole by them.
    pub fn take(&mut self, piece: &[u8], room: usize) -> Result<(), Memory>
        requires ready { IsUnclosed self.old }
        requires size { self.old.size ≤ room }
        requires within { self.old.size + length piece.now < 2 ^ 32 }
        ensures ready { OnOk result (IsUnclosed self.new) }
        ensures told { OnOk result (AddsBytes self.old self.new (take (room - self.old.size) piece.now)) }
        ensures size { OnOk result (self.new.size ≡ self.old.size + length piece.now) }
    {
        self.give(first(piece, room - self.size))?;
        self.size += piece.len();
        Ok(())
    }

    /// No bytes follow: takes in what is left.
    pub fn finish(&mut self) -> Result<(), Memory>
        requires { IsUnclosed self.old }
        ensures told { OnOk result (self.new.told.items ≡ self.old.told.items ++ still self.old.stream []) }
        ensures size { self.new.size ≡ self.old.size }
    {
        self.stream.close();
        self.take_whole()
    }
}
