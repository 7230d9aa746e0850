// Standard output, or standard error, as a sink. It tells nothing: what a terminal or a file takes is the system's word.
ghost use Rattle.std.specs.Prelude.{◌≡◌};

use crate::real::raise;
use lr_host::{Sink, SinkFault};
use std::io::{self, Write};

/// Standard output, with a count of the writes that failed; over `rt.stderr()` it is standard error. A piece is written at once,
/// without a buffer.
#[derive(Drop)]
pub struct RealSink<R> {
    rt: R,
    faults: u64,
}

impl<R> RealSink<R> {
    /// The output that the runtime reaches.
    pub fn new(rt: R) -> RealSink<R>
        ensures { result.faults ≡ 0 }
    {
        RealSink { rt, faults: 0 }
    }
}

impl<R: Print + Drop> Sink for RealSink<R> {
    ghost use Rattle.std.specs.Prelude.{None};

    ghost taken = { λ _. None };

    ghost faults = { λ s. s.faults };

    fn put(&mut self, piece: &[u8]) -> Result<usize, SinkFault> {
        match io::writer(&self.rt).write(piece) {
            Ok(count) if count > 0 || piece.is_empty() => Ok(count),
            _ => {
                raise(&mut self.faults);
                Err(SinkFault::Failed)
            }
        }
    }
}
