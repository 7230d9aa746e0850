// Cases of when a log is due, one for each line of the table that decides it.
ghost use Rattle.std.specs.Prelude.{◌≡◌, ◌∷◌, [], map};
ghost use Rattle.lr_tables.specs.Cases.{Covers};

use lr_rules::{Civil, Criterion};

/// What a definition says of a log and what is seen of that, at 2024-01-14 00:05:00 UTC, which is the moment 1705190700;
/// and which line decides whether it is due.
#[derive(Clone, Copy)]
pub struct DueCase {
    pub criterion: Criterion,
    /// Whether an empty log is rotated, too.
    pub ifempty: bool,
    /// In days.
    pub minage: Option<u32>,
    /// In bytes.
    pub minsize: Option<u64>,
    /// In bytes.
    pub maxsize: Option<u64>,
    /// The size of the log, in bytes.
    pub size: u64,
    /// The moment of its last change, in seconds since 1970.
    pub mtime: i64,
    /// The moment of its last rotation, where one is known.
    pub last: Option<Civil>,
    pub force: bool,
    /// The number of the first line that applies: 1 an empty log that isn't to be rotated, 2 too young, 3 forced, 4 above
    /// maxsize, 5 a criterion by size, 6 no rotation is known, 7 the last one is more than 25 hours ahead, 8 it is ahead,
    /// 9 the hour, day, week, month or year hasn't turned, 10 not above minsize, 11 it has turned.
    pub answer: u8,
}

/// Cases that a program can go through.
#[derive(Clone, Copy)]
pub struct DueCases<const N: usize> {
    pub rows: [DueCase; N],
}

// A log of one byte that was changed just now and rotated yesterday, whose definition says nothing but that it is daily.
fn plain() -> DueCase {
    DueCase {
        criterion: Criterion::Daily,
        ifempty: true,
        minage: None,
        minsize: None,
        maxsize: None,
        size: 1,
        mtime: 1_705_190_700,
        last: Civil::new(2024, 1, 13, 0, 0, 0),
        force: false,
        answer: 11,
    }
}

// Each case is told by what is different from the plain one.
macro_rules! cases {
    ($plain:ident $($answer:literal: $($field:ident = $value:expr),*;)*) => {
        [$(DueCase { answer: $answer, $($field: $value,)* ..$plain }),*]
    };
}

fn in_order() -> [DueCase; 11]
    ensures { map (λ row. row.answer) result ≡ 1 ∷ 2 ∷ 3 ∷ 4 ∷ 5 ∷ 6 ∷ 7 ∷ 8 ∷ 9 ∷ 10 ∷ 11 ∷ [] }
{
    let plain = plain();
    cases![plain
        1: ifempty = false, size = 0;
        2: minage = Some(1), mtime = 1_705_104_301;
        3: force = true;
        4: maxsize = Some(10), size = 11, last = None;
        5: criterion = Criterion::Size(1024), size = 1024;
        6: last = None;
        7: last = Civil::new(2024, 1, 15, 1, 5, 1);
        8: last = Civil::new(2024, 1, 15, 1, 5, 0);
        9: last = Civil::new(2024, 1, 14, 0, 0, 0);
        10: minsize = Some(10), size = 10;
        11: minsize = Some(10), size = 11;
    ]
}

/// A case for each line, in their order. No memory is taken.
#[tactic(auto, using(crate::proofs::Lines::all_covered))]
pub fn due_cases() -> DueCases<11>
    ensures covers { Covers result.rows }
{
    DueCases { rows: in_order() }
}
