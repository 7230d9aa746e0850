// The file that each writer holds: pairs, of which the first with a writer counts.
ghost use Rattle.std.specs.Prelude.{◌≡◌, ℕ, true, OnOk, nat_eq};
ghost use Rattle.lr_disk.specs.Pairs.{with_value};
ghost use Rattle.lr_disk.specs.State.{hold_in, has_writer};

use std::alloc::AllocError;

pub fn hold_of(holds: &[(u32, Option<u64>)], writer: u32) -> Option<u64>
    ensures { result ≡ hold_in holds.now writer }
{
    for pair in holds {
        if pair.0 == writer {
            return pair.1;
        }
    }
    None
}

/// Makes room for what the writer holds. Nothing changes.
pub fn make_hold(holds: &mut Vec<(u32, Option<u64>)>, writer: u32) -> Result<(), AllocError>
    ensures same { (v : ℕ) → hold_in holds.new.items v ≡ hold_in holds.old.items v }
    ensures here { OnOk result (has_writer holds.new.items writer ≡ true) }
{
    for pair in holds.as_slice() {
        if pair.0 == writer {
            return Ok(());
        }
    }
    holds.push((writer, None))?;
    Ok(())
}

/// Lets a writer hold something else.
pub fn set_hold(holds: &mut [(u32, Option<u64>)], writer: u32, file: Option<u64>)
    requires { has_writer holds.old writer ≡ true }
    ensures { (v : ℕ) → hold_in holds.new v ≡ with_value nat_eq (hold_in holds.old) writer file v }
{
    for i in 0..holds.len() {
        let pair = &mut holds[i];
        if pair.0 == writer {
            pair.1 = file;
            return;
        }
    }
}
