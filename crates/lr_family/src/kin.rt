// Whether a log and a naming make a family.
ghost use Rattle.std.specs.Prelude.{◌≡◌, ◌≤◌, ◌+◌, ◌↔◌, ℕ, length, true, None};
ghost use Rattle.std.specs.List.{list_any};
ghost use Rattle.lr_rules.specs.Names.{IsMemberAt};
ghost use Rattle.lr_family.specs.Kin.{IsKin, is_barred};

use crate::number::place_of_path;
use lr_rules::{Naming, Path};

fn any_barred(bytes: &[u8]) -> bool
    ensures { result ≡ list_any is_barred bytes.now }
{
    bytes.iter().any(|b| *b == b'/' || (*b == b'\n' || *b == 0))
}

// Whether each name that is made so is short enough to be a path.
fn are_short(dir: &[u8], base: &[u8], ext: &[u8]) -> bool
    ensures { (result ≡ true) ↔ ((length dir.now ≤ 2600) × (length base.now + length ext.now ≤ 400)) }
{
    dir.len() <= 2600 && (base.len() <= 400 && ext.len() <= 400 - base.len())
}

// Whether the log is no member; of a dated naming nothing is asked so far.
fn is_apart(log: &Path, naming: &Naming) -> bool
    ensures { (result ≡ true) ↔ (naming.now.dated ≡ None → (place : ℕ) → IsMemberAt naming.now place log.now → ⊥) }
{
    match &naming.dated {
        Some(_) => true,
        None => match place_of_path(naming, log) {
            Some(_) => false,
            None => true,
        },
    }
}

/// Whether the log and the naming make a family, as `Family::of` asks. It takes no memory.
pub fn are_kin(log: &Path, naming: &Naming) -> bool
    ensures { (result ≡ true) ↔ IsKin log.now naming.now }
{
    let base = naming.base.bytes();
    let ext = naming.ext.bytes();
    let short = are_short(naming.dir.bytes(), base, ext);
    let base_barred = any_barred(base);
    let ext_barred = any_barred(ext);
    let apart = is_apart(log, naming);
    short & (!base_barred & (!ext_barred & apart))
}
