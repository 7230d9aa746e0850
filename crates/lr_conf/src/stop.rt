// What taking a line answers.
use lr_rules::{ConfKind, Memory, Path};

/// A line that asks for another file to be read in its place.
#[derive(Drop)]
pub struct Include {
    pub path: Path,
    pub line: u32,
}

/// Why a line gives no more than its notices, or no more than these and another file. Each fault stands with its line.
#[derive(Drop)]
pub enum LayerStop {
    /// One fault.
    Conf(u32, ConfKind),
    /// Names have no brace, the first of which stands in the line that comes first here; and the line that shows this
    /// has a fault of its own.
    NoBraceAnd(u32, u32, ConfKind),
    /// Names have no brace, the first of which stands in this line; and the line that shows this asks for another file,
    /// which is to be read all the same.
    NoBraceThen(u32, Include),
    /// Want of memory, by which nothing is changed.
    Memory,
}

impl From<Memory> for LayerStop {
    ghost use Rattle.std.specs.Prelude.{◌≡◌};
    ghost use Rattle.lr_conf.specs.declared.stop.LayerStop.TheVariants as stop;

    ghost from_gives = { λ _ e. e ≡ stop.Memory };

    fn from(_error: Memory) -> LayerStop {
        LayerStop::Memory
    }
}
