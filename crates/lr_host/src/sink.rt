// Where printed bytes go.
ghost use Rattle.std.specs.Prelude.{◌≡◌, ◌≤◌, ◌<◌, ◌++◌, ℕ, List, length, Option, OnErr, IfOk};
ghost use Rattle.std.specs.Option.{option_map};
ghost use Rattle.lr_host.specs.Told.{Rose, taken_of};

/// A put failed: it took nothing, and the count of faults rose.
#[derive(Clone, Copy, Debug, PartialEq, Eq)]
pub enum SinkFault {
    Failed,
}

/// What takes printed bytes.
pub trait Sink {
    /// All bytes that it took, where it tells them.
    ghost taken: { Self → Option (List ℕ) };

    /// How often a put failed.
    ghost faults: { Self → ℕ };

    /// Takes a first part of the piece, at least one byte of a piece that isn't empty; the answer is its length.
    fn put(&mut self, piece: &[u8]) -> Result<usize, SinkFault>
        ensures bound { IfOk result (λ count. count ≤ length piece.now) }
        ensures some { IfOk result (λ count. 0 < length piece.now → 0 < count) }
        ensures taken { taken self.new ≡ option_map (λ bytes. bytes ++ taken_of result piece.now) (taken self.old) }
        ensures cause { OnErr result (Rose (faults self.old) (faults self.new)) }
        ensures counts { faults self.old ≤ faults self.new };
}
