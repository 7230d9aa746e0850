// What the acts came to so far.
ghost use Rattle.std.specs.Prelude.{◌≡◌, ◌++◌, ◌∷◌, []};
ghost use Rattle.lr_acts.specs.Adding.{HasRoom, FillsRoom};

use lr_plan::Mark;
use lr_rules::Fault;

/// What the acts came to so far: the marks of the steps that were made, and the faults.
#[derive(Drop)]
pub struct Progress {
    pub marks: Vec<Mark>,
    pub faults: Vec<Fault>,
    /// What copies of bytes pass through; its content tells nothing.
    pub buffer: Vec<u8>,
}

/// Adds a fault for which there is room.
pub fn add_fault(progress: &mut Progress, fault: Fault)
    requires { HasRoom 1 progress.old }
    ensures faults { progress.new.faults.items ≡ progress.old.faults.items ++ fault ∷ [] }
    ensures marks { progress.new.marks.items ≡ progress.old.marks.items ++ [] }
    ensures fills { FillsRoom 1 progress.old progress.new }
{
    progress.faults.push_reserved(fault);
}

/// Adds a mark for which there is room.
pub fn add_mark(progress: &mut Progress, mark: Mark)
    requires { HasRoom 1 progress.old }
    ensures marks { progress.new.marks.items ≡ progress.old.marks.items ++ mark ∷ [] }
    ensures faults { progress.new.faults.items ≡ progress.old.faults.items ++ [] }
    ensures fills { FillsRoom 1 progress.old progress.new }
{
    progress.marks.push_reserved(mark);
}
