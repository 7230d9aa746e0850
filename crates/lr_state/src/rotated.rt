// A log that was rotated.
ghost use Rattle.std.specs.Prelude.{◌≡◌, [], ◌∷◌, map};
ghost use Rattle.lr_state.specs.After.{stamped};

use crate::state::State;
use lr_rules::{Civil, Path};

/// Writes down that the log was rotated at this moment, where the table has its name. It takes no memory.
pub fn stamp(table: &mut State, log: &Path, now: Civil)
    ensures { table.new ≡ map (stamped (log.now ∷ []) now) table.old }
{
    if table.get(log.bytes()).is_some() {
        // The name is there, so there is no want of memory.
        let _set = table.set(log.bytes(), now);
    }
}
