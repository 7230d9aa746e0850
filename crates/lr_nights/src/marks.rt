// Marks of files, by their identities.
ghost use Rattle.std.specs.Prelude.{◌≡◌, ◌<◌, ℕ, ◌||◌, ◌&&◌, not, length, count_by, nat_eq, OnOk};
ghost use Rattle.lr_host.specs.World.{is_file};
ghost use Rattle.lr_nights.specs.Marks.{is_marked};

use lr_host::Thing;
use lr_rules::Memory;

// Makes sure that there is a place for a mark. Nothing is marked.
fn widen(marks: &mut Vec<bool>, at: usize) -> Result<(), Memory>
    ensures same { (g : ℕ) → is_marked marks.new.items g ≡ is_marked marks.old.items g }
    ensures wide { OnOk result (at < length marks.new.items) }
{
    while marks.len() <= at {
        marks.push(false)?;
    }
    Ok(())
}

// Marks the file with this identity.
fn mark_at(marks: &mut Vec<bool>, identity: u64) -> Result<(), Memory>
    ensures { OnOk result ((g : ℕ) → is_marked marks.new.items g ≡ (is_marked marks.old.items g || nat_eq identity g)) }
{
    let at = identity as usize;
    widen(marks, at)?;
    marks[at] = true;
    Ok(())
}

/// Marks the file that is named, if one is.
pub fn mark(marks: &mut Vec<bool>, thing: Thing) -> Result<(), Memory>
    ensures { OnOk result ((g : ℕ) → is_marked marks.new.items g ≡ (is_marked marks.old.items g || is_file thing g)) }
{
    match thing {
        Thing::File(identity) => mark_at(marks, identity),
        _ => Ok(()),
    }
}

/// Takes the mark of the file that is named, if one is.
pub fn unmark(marks: &mut Vec<bool>, thing: Thing)
    ensures { (g : ℕ) → is_marked marks.new.items g ≡ (is_marked marks.old.items g && not (is_file thing g)) }
{
    let Thing::File(identity) = thing else {
        return;
    };
    let at = identity as usize;
    if at < marks.len() {
        marks[at] = false;
    }
}

/// How many files are marked.
pub fn count_marks(marks: &[bool]) -> u64
    ensures { result ≡ count_by (λ m. m) marks.now }
{
    marks.iter().filter(|mark| **mark).count() as u64
}
