// The looks at a family's members.
ghost use Rattle.std.specs.Prelude.{◌≡◌, [], ◌∷◌, ◌++◌, IfOk, IfErr, OnOk, Err};
ghost use Rattle.lr_host.specs.declared.entry.Entry.TheVariants as entry;
ghost use Rattle.lr_host.specs.Told.{Left, Are, Onward, Rose};
ghost use Rattle.lr_host.specs.Looks.{IsFileOrGone};
ghost use Rattle.lr_family.specs.Looks.{AreSeen, ShowsSpots, seen_member};
ghost use Rattle.lr_family.specs.Stands.{IsFailedStand};
ghost use Rattle.lr_family.specs.Stops.{OneStopped, SomeStopped, standing_stop};

use crate::spot::Spot;
use crate::stand::{Member, StandStop};
use lr_host::{Host, Kind, Seen};
use lr_rules::{CallKind, Memory, Path};
use std::alloc::Global;

/// Why a path isn't seen as a regular file or as nothing.
#[derive(Clone, Copy)]
pub enum LookStop {
    /// The look failed.
    Call,
    /// It saw another kind of thing.
    NotFile,
}

/// Looks at one path: a regular file, or nothing.
pub fn look_at<H: Host>(host: &mut H, path: &Path) -> Result<Option<Seen>, LookStop>
    ensures file { IfOk result IsFileOrGone }
    ensures told { IfOk result (λ seen. Left (Are (entry.Look path.now seen ∷ [])) (H.told host.old) (H.told host.new)) }
    ensures stopped { IfErr result (λ stop. Left (OneStopped path.now stop) (H.told host.old) (H.told host.new)) }
    ensures cause { result ≡ Err LookStop.Call → Rose (H.counts host.old).faults (H.counts host.new).faults }
    ensures counts { Onward (H.counts host.old) (H.counts host.new) }
{
    let Ok(look) = host.look(path, false) else {
        return Err(LookStop::Call);
    };
    let Some(seen) = look else {
        return Ok(None);
    };
    match seen.kind {
        Kind::File => Ok(Some(seen)),
        Kind::Dir => Err(LookStop::NotFile),
        Kind::Other => Err(LookStop::NotFile),
    }
}

/// The stop at this path.
pub fn stop_at(stop: LookStop, path: Path) -> StandStop
    ensures { result ≡ standing_stop stop path }
{
    match stop {
        LookStop::Call => StandStop::Call(CallKind::Look, path),
        LookStop::NotFile => StandStop::NotFile(path),
    }
}

// Adds the member, where the look saw one: a name that is gone since it was listed is no member.
fn add_seen(members: &mut Vec<Member>, spot: Spot, seen: Option<Seen>) -> Result<(), Memory>
    ensures { OnOk result (members.new.items ≡ members.old.items ++ seen_member spot seen) }
{
    if let Some(seen) = seen {
        members.push(Member {
            path: spot.path,
            place: spot.place,
            seen,
        })?;
    }
    Ok(())
}

/// Looks at each member, in order, and gives those that it saw.
pub fn look_at_all<H: Host>(
    alloc: Global,
    host: &mut H,
    spots: Vec<Spot>,
) -> Result<Vec<Member>, StandStop>
    ensures told { IfOk result (λ members. Left (ShowsSpots spots.items members.items) (H.told host.old) (H.told host.new)) }
    ensures seen { IfOk result (λ members. AreSeen spots.items members.items) }
    ensures stopped { IfErr result (λ stop. Left (SomeStopped spots.items stop) (H.told host.old) (H.told host.new)) }
    ensures cause { IfErr result (λ stop. IsFailedStand stop → Rose (H.counts host.old).faults (H.counts host.new).faults) }
    ensures counts { Onward (H.counts host.old) (H.counts host.new) }
{
    let mut members = Vec::new(alloc);
    for spot in spots {
        let seen = match look_at(host, &spot.path) {
            Ok(seen) => seen,
            Err(stop) => return Err(stop_at(stop, spot.path)),
        };
        if add_seen(&mut members, spot, seen).is_err() {
            return Err(StandStop::Memory);
        }
    }
    Ok(members)
}
