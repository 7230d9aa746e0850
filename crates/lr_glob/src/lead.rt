// The parts of a word, one after another.
ghost use Rattle.std.specs.Prelude.{◌≡◌, ◌∷◌, [], ◌++◌, OnOk, IfOk, IfErr};
ghost use Rattle.lr_host.specs.Told.{Left, Onward, Rose};
ghost use Rattle.lr_glob.specs.Rounds.{Led};
ghost use Rattle.lr_glob.specs.Stops.{IsFailedGlob, NotLed};
ghost use Rattle.lr_rules.specs.Path.{is_slash};
ghost use Rattle.std.specs.List.{slice_split};

use crate::found::GlobStop;
use crate::round::follow;
use lr_host::Host;
use lr_rules::{Memory, Path, Text, push_text};
use std::alloc::Global;

/// What stands behind the slashes of an absolute word.
pub fn parts_of(alloc: Global, behind: &[u8]) -> Result<Vec<Text>, Memory>
    ensures { IfOk result (λ parts. parts.items ≡ slice_split is_slash behind.now) }
{
    let mut parts = Vec::new(alloc);
    for part in behind.split(|b| *b == b'/') {
        // What stands between slashes of a text is a text.
        push_text(alloc, &mut parts, part)?;
    }
    Ok(parts)
}

/// The paths to which the parts lead from these, one after another.
pub fn lead<H: Host>(
    alloc: Global,
    host: &mut H,
    parts: &[Text],
    start: Vec<Path>,
) -> Result<Vec<Path>, GlobStop>
    ensures told { IfOk result (λ paths. Left (Led parts.now start.items paths.items) (H.told host.old) (H.told host.new)) }
    ensures stopped { IfErr result (λ why. Left (NotLed parts.now start.items why) (H.told host.old) (H.told host.new)) }
    ensures cause { IfErr result (λ why. IsFailedGlob why → Rose (H.counts host.old).faults (H.counts host.new).faults) }
    ensures counts { Onward (H.counts host.old) (H.counts host.new) }
{
    let mut dirs = start;
    for part in parts {
        dirs = match follow(alloc, host, part, dirs) {
            Ok(paths) => paths,
            Err(stop) => return Err(stop),
        };
    }
    Ok(dirs)
}
