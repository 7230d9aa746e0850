// The writing of a state file.
ghost use Rattle.std.specs.Prelude.{◌≡◌, ◌+◌, ◌≤◌, [], ◌∷◌, ◌++◌, vec_len};
ghost use Rattle.std.specs.Vec.{vec_capacity};
ghost use Rattle.lr_state.specs.Written.{table_text};
ghost use Rattle.lr_plan.specs.Steps.{state_steps};
ghost use Rattle.lr_plan.specs.Asking.{CanMake};
ghost use Rattle.lr_writing.specs.Writes.{ComesTo, AddsCourse, faults_in};

use crate::naming::name_synced;
use crate::part::{fault_at, write_part};
use crate::writing::Writing;
use lr_host::Host;
use lr_rules::{Fault, Listed, Path};
use lr_state::State;

// Makes the steps, up to one that fails.
fn make_all<H: Host>(
    host: &mut H,
    writing: Writing,
    dirs: Listed<Path>,
    table: &State,
) -> Result<(), Fault>
    requires { CanMake (H.told host.old) (state_steps writing.state writing.stale dirs (table_text table.now)) }
    ensures { ComesTo (state_steps writing.state writing.stale dirs (table_text table.now)) (faults_in result) (H.told host.old)
        (H.told host.new) (H.counts host.old) (H.counts host.new) }
{
    let Writing {
        part,
        state,
        dir,
        stale,
        mut buffer,
    } = writing;
    if let Err(why) = write_part(host, &part, stale, table, buffer.as_mut_slice()) {
        return Err(fault_at(part, why));
    }
    name_synced(host, part, state, dir, dirs)
}

// Adds a fault for which there is room.
fn add_fault(faults: &mut Vec<Fault>, fault: Fault)
    requires { vec_len faults.old + 1 ≤ vec_capacity faults.old }
    ensures faults { faults.new.items ≡ faults.old.items ++ fault ∷ [] }
    ensures one_more { vec_len faults.new ≡ vec_len faults.old + 1 }
    ensures room { vec_capacity faults.old ≤ vec_capacity faults.new }
{
    faults.push_reserved(fault);
}

/// Writes the text of the table as the state file: an old part file that was seen is unlinked; the text goes to a new one
/// of mode 0640, which is synced; so are these directories, so that the names in them are durable before the state gets its
/// own; then the part file gets the state's path, and the directory of that is synced. It takes no memory. A call that fails
/// leaves the rest undone; its fault is added, for which there has to be room.
pub fn write_state<H: Host>(
    host: &mut H,
    writing: Writing,
    dirs: Listed<Path>,
    table: &State,
    faults: &mut Vec<Fault>,
)
    requires fits { CanMake (H.told host.old) (state_steps writing.state writing.stale dirs (table_text table.now)) }
    requires room { vec_len faults.old + 1 ≤ vec_capacity faults.old }
    ensures told { AddsCourse (state_steps writing.state writing.stale dirs (table_text table.now)) faults.old.items
        faults.new.items (H.told host.old) (H.told host.new) (H.counts host.old) (H.counts host.new) }
    ensures few { vec_len faults.new ≤ vec_len faults.old + 1 }
    ensures room { vec_capacity faults.old ≤ vec_capacity faults.new }
{
    match make_all(host, writing, dirs, table) {
        Ok(()) => {}
        Err(fault) => add_fault(faults, fault),
    }
}
