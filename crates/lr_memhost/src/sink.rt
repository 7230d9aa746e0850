// The sink in memory: it keeps what is put, and listed puts fail.
ghost use Rattle.std.specs.Prelude.{◌≡◌, ◌≤◌, ◌<◌, ◌⊎◌, ◌++◌, [], length, Contains, Some, IfOk, IsErr, OnErr, OnOk};
ghost use Rattle.std.specs.Option.{option_map};
ghost use Rattle.lr_host.specs.Told.{Rose, taken_of};
ghost use Rattle.lr_memhost.specs.Acts.{one_more};
ghost use Rattle.lr_memhost.specs.Sheet.{Sheet};

use lr_host::{Sink, SinkFault};
use std::alloc::Global;
use std::marker::Model;

/// What takes printed bytes in memory.
#[derive(Drop)]
pub struct MemSink {
    bytes: Vec<u8>,
    failing: Vec<u64>,
    puts: u64,
    faults: u64,
    starved: u64,
}

impl Model for MemSink {
    ghost use Rattle.lr_memhost.specs.Sheet.{Sheet};

    ghost Value = { Sheet };

    ghost view = { λ s. record {
      taken = s.bytes.items;
      failing = s.failing.items;
      puts = s.puts;
      faults = s.faults;
      starved = s.starved;
    } };
}

impl MemSink {
    /// A sink that took nothing yet, and of which the puts with these numbers fail, counted from 0.
    pub fn new(alloc: Global, failing: Vec<u64>) -> MemSink
        ensures { result ≡ record { taken = []; failing = failing.items; puts = 0; faults = 0; starved = 0 } }
    {
        MemSink {
            bytes: Vec::new(alloc),
            failing,
            puts: 0,
            faults: 0,
            starved: 0,
        }
    }

    /// All bytes that it took.
    pub fn bytes(&self) -> &[u8]
        ensures { result.now ≡ self.now.taken }
    {
        self.bytes.as_slice()
    }

    /// How often there was no memory for a put; a count at its type's end stands still.
    pub fn starved(&self) -> u64
        ensures { result ≡ self.now.starved }
    {
        self.starved
    }
}

impl Sink for MemSink {
    ghost use Rattle.std.specs.Prelude.{Some};

    ghost taken = { λ s. Some s.taken };

    ghost faults = { λ s. s.faults };

    /// It takes the whole piece. It fails where the put is listed, and where there is no memory, which it counts.
    fn put(&mut self, piece: &[u8]) -> Result<usize, SinkFault>
        ensures bound { IfOk result (λ count. count ≤ length piece.now) }
        ensures some { IfOk result (λ count. 0 < length piece.now → 0 < count) }
        ensures taken { Some self.new.taken ≡ option_map (λ bytes. bytes ++ taken_of result piece.now) (Some self.old.taken) }
        ensures cause { OnErr result (Rose self.old.faults self.new.faults) }
        ensures counts { self.old.faults ≤ self.new.faults }
        ensures all { IfOk result (λ count. count ≡ length piece.now) }
        ensures only { OnErr result (Contains self.old.failing self.old.puts ⊎ Rose self.old.starved self.new.starved) }
        ensures listed { Contains self.old.failing self.old.puts → IsErr result }
        ensures steady { OnOk result ((self.new.faults ≡ self.old.faults) × (self.new.starved ≡ self.old.starved)) }
        ensures next { (self.new.failing ≡ self.old.failing) × (self.new.puts ≡ one_more self.old.puts) }
    {
        let is_listed = self.failing.contains(&self.puts);
        self.puts = self.puts.saturating_add(1);
        if is_listed {
            self.faults = self.faults.saturating_add(1);
            return Err(SinkFault::Failed);
        }
        let Ok(()) = self.bytes.extend_from_slice(piece) else {
            self.faults = self.faults.saturating_add(1);
            self.starved = self.starved.saturating_add(1);
            return Err(SinkFault::Failed);
        };
        Ok(piece.len())
    }
}
