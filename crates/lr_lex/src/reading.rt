// The pieces and the items of a stream.
ghost use Rattle.std.specs.Prelude.{◌≡◌, ◌+◌, ◌≤◌, ◌<◌, ◌^◌, ◌++◌, ℕ, List, true, false, length, OnOk, OnErr};
ghost use Rattle.lr_lex.specs.Items.{items};
ghost use Rattle.lr_lex.specs.Streams.{StreamStands, still, given, StreamGives};

use crate::ending::finish;
use crate::held::Held;
use crate::item::{Item, LexFault};
use crate::stream::Stream;
use crate::stream_scan::scan;
use lr_rules::Memory;
use std::alloc::Global;

impl Stream {
    /// A stream that was given nothing, and has taken no memory.
    pub fn new(alloc: Global) -> Stream
        ensures stands { StreamStands result }
        ensures text { (more : List ℕ) → still result more ≡ items more }
        ensures given { given result ≡ 0 }
        ensures open { result.closed ≡ false }
    {
        Stream {
            held: Held {
                alloc,
                bytes: Vec::new(alloc),
                begun: 0,
                lines: 0,
                rest: Vec::new(alloc),
                from: 0,
                down: 0,
                at: 0,
            },
            closed: false,
        }
    }

    /// Takes the whole piece; where there is no memory for it, nothing of it. In all fewer than 2^32 bytes
    /// may be given.
    pub fn give(&mut self, piece: &[u8]) -> Result<(), Memory>
        requires stands { StreamStands self.old }
        requires open { self.old.closed ≡ false }
        requires few { given self.old + length piece.now < 2 ^ 32 }
        ensures stands { StreamStands self.new }
        ensures taken { OnOk result ((more : List ℕ) → still self.old (piece.now ++ more) ≡ still self.new more) }
        ensures given { OnOk result (given self.new ≡ given self.old + length piece.now) }
        ensures same { OnErr result ((more : List ℕ) → still self.old more ≡ still self.new more) }
        ensures as_many { OnErr result (given self.new ≡ given self.old) }
        ensures open { self.new.closed ≡ false }
    {
        self.held.rest.extend_from_slice(piece)?;
        Ok(())
    }

    /// No piece follows.
    pub fn close(&mut self)
        requires { StreamStands self.old }
        ensures stands { StreamStands self.new }
        ensures closed { self.new.closed ≡ true }
        ensures same { self.new.held ≡ self.old.held }
    {
        self.closed = true;
    }

    /// The next item or fault. None comes, before the close, exactly where the bytes given hold no further whole item: one
    /// of a line is whole with its newline, a script with the line of its `endscript`; and after the close exactly at the
    /// end. After `Memory` the stream stands where it stood.
    pub fn next(&mut self) -> Result<Option<Item>, LexFault>
        requires { StreamStands self.old }
        ensures stands { StreamStands self.new }
        ensures gives { StreamGives self.old self.new result }
        ensures few { given self.new ≤ given self.old }
    {
        match scan(&mut self.held) {
            Ok(None) => {
                if self.closed {
                    finish(&mut self.held)
                } else {
                    Ok(None)
                }
            }
            Ok(Some(item)) => Ok(Some(item)),
            Err(fault) => Err(fault),
        }
    }
}
