// The files that stand at the end under the names of logs and members.
ghost use Rattle.std.specs.Prelude.{◌≡◌, ◌+◌, List, All, None, IfOk, IfSome};
ghost use Rattle.lr_host.specs.World.{World, Past, world, names};
ghost use Rattle.lr_host.specs.Sets.{LogSet};
ghost use Rattle.lr_disk.specs.State.{ShowsWorld};
ghost use Rattle.lr_nights.specs.Summary.{AreSetsOf, logs_of};
ghost use Rattle.lr_nights.specs.Walk.{IsStanding, count_one, bytes_one};

use crate::names::is_of_one;
use crate::standing::Standing;
use lr_disk::Replay;
use lr_family::Family;
use lr_host::Thing;
use lr_rules::{Memory, Path};

// One more, where the name is a log's or a member's and a regular file has it; None where that is too many.
fn with_name(
    before: Standing,
    name: &(Path, Thing),
    replay: &Replay,
    logs: &[Family],
) -> Option<Standing>
    requires { All (λ f. f.naming.dated ≡ None) logs.now }
    ensures files { IfSome result (λ after. (sets : List LogSet) → AreSetsOf (logs_of logs.now) sets
        → after.files ≡ before.files + count_one sets name.now) }
    ensures bytes { IfSome result (λ after. (sets : List LogSet) (w : World) → AreSetsOf (logs_of logs.now) sets
        → ShowsWorld replay.now w → names w name.now.0 ≡ name.now.1 → after.bytes ≡ before.bytes + bytes_one w sets name.now) }
{
    if !is_of_one(logs, &name.0) {
        return Some(before);
    }
    let Thing::File(identity) = name.1 else {
        return Some(before);
    };
    let files = before.files.checked_add(1)?;
    let bytes = before.bytes.checked_add(replay.size_of(identity))?;
    Some(Standing { files, bytes })
}

/// The files that stand.
pub fn count_files(replay: &Replay, logs: &[Family]) -> Result<Standing, Memory>
    requires { All (λ f. f.naming.dated ≡ None) logs.now }
    ensures { IfOk result (λ standing. (sets : List LogSet) (p : Past) → AreSetsOf (logs_of logs.now) sets
        → ShowsWorld replay.now (world p) → IsStanding sets p standing) }
{
    let named = replay.named();
    let mut standing = Standing { files: 0, bytes: 0 };
    for name in named {
        let Some(more) = with_name(standing, name, replay, logs) else {
            return Err(Memory);
        };
        standing = more;
    }
    Ok(standing)
}
