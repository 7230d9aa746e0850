// Why rows can't be read or played.
ghost use Rattle.std.specs.Prelude.{◌≡◌};
ghost use Rattle.lr_rows_line.specs.Trouble.{told_at};

use lr_rules::{Memory, PathFault, TextFault};
use std::alloc::{AllocError, AllocFailed};

/// Why rows can't be read or played.
#[derive(Clone, Copy, Debug)]
pub enum Trouble {
    Memory,
    /// This line, counted from 1, is none of a row, and why.
    Line(u32, &'static str),
    /// Why a line is none of a row.
    Odd(&'static str),
}

impl Trouble {
    /// The trouble of the line with this number.
    pub fn at(self, line: u32) -> Trouble
        ensures { result ≡ told_at line self }
    {
        match self {
            Trouble::Odd(why) => Trouble::Line(line, why),
            other => other,
        }
    }
}

impl From<AllocError> for Trouble {
    fn from(_fault: AllocError) -> Trouble {
        Trouble::Memory
    }
}

impl<T: Drop> From<AllocFailed<T>> for Trouble {
    fn from(_fault: AllocFailed<T>) -> Trouble {
        Trouble::Memory
    }
}

impl From<Memory> for Trouble {
    fn from(_fault: Memory) -> Trouble {
        Trouble::Memory
    }
}

impl From<PathFault> for Trouble {
    fn from(fault: PathFault) -> Trouble {
        if fault == PathFault::Memory {
            Trouble::Memory
        } else {
            Trouble::Odd("a path is wanted")
        }
    }
}

impl From<TextFault> for Trouble {
    fn from(fault: TextFault) -> Trouble {
        if fault == TextFault::Memory {
            Trouble::Memory
        } else {
            Trouble::Odd("a text is wanted")
        }
    }
}
