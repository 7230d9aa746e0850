// Whether a log was rotated.
ghost use Rattle.std.specs.Prelude.{◌≡◌};
ghost use Rattle.std.specs.List.{list_any};
ghost use Rattle.lr_plan.specs.Done.{is_rotated};

use lr_plan::Mark;

fn tells_rotation(mark: &Mark) -> bool
    ensures { result ≡ is_rotated mark.now }
{
    match mark {
        Mark::Rotated(_) => true,
        Mark::Directory(_) => false,
        Mark::Created(_) => false,
    }
}

/// Whether one of these steps rotated a log.
pub fn any_rotated(marks: &[Mark]) -> bool
    ensures { result ≡ list_any is_rotated marks.now }
{
    marks.iter().any(|mark| tells_rotation(mark))
}
