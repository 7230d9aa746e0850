// A state text that comes in pieces.
ghost use Rattle.std.specs.Prelude.{◌≡◌, ◌++◌, [], ℕ, List, OnOk, OnErr, Err};
ghost use Rattle.lr_state.specs.Answer.{ReaderGives, IsSaidBy};
ghost use Rattle.lr_state.specs.Given.{Given, HasTaken, IsStarved};
ghost use Rattle.lr_state.specs.Grammar.{StateSaid, TextSays};
ghost use Rattle.lr_state.specs.declared.text.StateStop.TheVariants as stop;

use crate::state::State;
use crate::text::StateStop;
use lr_rules::{Memory, StateKind};
use std::alloc::Global;
use std::marker::Model;

// A text of more bytes is too big.
const MOST: usize = 67_108_864;

/// A state text of which pieces are given, one behind the other. Contracts see the bytes given, or that they are too
/// many to be kept, and whether there was no memory for them.
#[derive(Drop)]
pub struct Reader {
    // All bytes that were given, where they aren't too many.
    bytes: Vec<u8>,
    too_many: bool,
    starved: bool,
}

impl Model for Reader {
    ghost use Rattle.lr_state.specs.Given.{Given};

    ghost Value = { Given };

    ghost view = { λ r. record { bytes = r.bytes.items; too_many = r.too_many; starved = r.starved } };
}

impl Reader {
    /// A reader to which nothing was given, which has taken no memory.
    pub fn new(alloc: Global) -> Reader
        ensures { HasTaken result [] }
    {
        Reader {
            bytes: Vec::new(alloc),
            too_many: false,
            starved: false,
        }
    }

    /// Takes the next piece. Beyond 67,108,864 bytes pieces are counted as too many and not kept. After want of memory
    /// each later call answers that.
    pub fn give(&mut self, piece: &[u8]) -> Result<(), Memory>
        ensures ok { (bytes : List ℕ) → HasTaken self.old bytes → OnOk result (HasTaken self.new (bytes ++ piece.now)) }
        ensures memory { OnErr result (IsStarved self.new) }
        ensures starved { IsStarved self.old → OnOk result ⊥ }
    {
        if self.starved {
            return Err(Memory);
        }
        if self.too_many || self.bytes.len().saturating_add(piece.len()) > MOST {
            self.too_many = true;
            self.bytes.clear();
            return Ok(());
        }
        match self.bytes.extend_from_slice(piece) {
            Ok(()) => Ok(()),
            Err(_) => {
                self.starved = true;
                Err(Memory)
            }
        }
    }

    /// What `State::read` answers for all bytes that were given.
    pub fn finish(self) -> Result<State, StateStop>
        // What comes is what the text says, its table or its first fault.
        ensures says { (bytes : List ℕ) → HasTaken self bytes → IsSaidBy (TextSays bytes) result }
        // What the text says comes, unless there is no memory.
        ensures only { (bytes : List ℕ) (said : StateSaid) → HasTaken self bytes → TextSays bytes said → ReaderGives result said }
        ensures starved { IsStarved self → result ≡ Err stop.Memory }
    {
        if self.starved {
            return Err(StateStop::Memory);
        }
        if self.too_many {
            return Err(StateStop::Bad(0, StateKind::TooBig));
        }
        State::read(*self.bytes.allocator(), &self.bytes)
    }
}
