// Cases of cuts of the machine.
ghost use Rattle.std.specs.Prelude.{◌↔◌, All, IsTrue};
ghost use Rattle.lr_tables.specs.Cases.{IsCutAllowed};

/// A cut of the machine while changes of names are pending and a file has bytes that aren't synced; and whether there can
/// be such a cut.
#[derive(Clone, Copy)]
pub struct CutCase {
    /// How many changes are pending.
    pub changes: usize,
    /// How many of them stay, the oldest ones.
    pub kept: usize,
    /// How many bytes of the file are synced, of its first.
    pub synced: u64,
    /// How many it has.
    pub length: u64,
    /// How many the cut leaves it.
    pub to: u64,
    pub allowed: bool,
}

/// Cases that a program can go through.
#[derive(Clone, Copy)]
pub struct CutCases<const N: usize> {
    pub rows: [CutCase; N],
}

macro_rules! cases {
    ($($changes:literal $kept:literal $synced:literal $length:literal $to:literal $allowed:literal;)*) => {
        [$(CutCase {
            changes: $changes,
            kept: $kept,
            synced: $synced,
            length: $length,
            to: $to,
            allowed: $allowed,
        }),*]
    };
}

/// All changes stay, or one more than there are; and none, where the file keeps too few of its bytes, those that are synced,
/// or more than it has. No memory is taken.
pub fn cut_cases() -> CutCases<5>
    ensures meant { All (λ c. IsTrue c.allowed ↔ IsCutAllowed c) result.rows }
{
    CutCases {
        rows: cases![
            2 2 1 3 3 true;
            2 3 1 3 3 false;
            2 0 1 3 0 false;
            2 0 1 3 1 true;
            2 0 1 3 4 false;
        ],
    }
}
