// Which members of a family stand, and which of their part files.
ghost use Rattle.std.specs.Prelude.{◌≡◌, IfOk};

use crate::place::Place;
use lr_host::Seen;
use lr_rules::{CallKind, Listed, Memory, Path, copy_paths};
use std::alloc::Global;

/// A member that stands, and what the look at it saw: a regular file.
#[derive(Drop)]
pub struct Member {
    pub path: Path,
    pub place: Place,
    pub seen: Seen,
}

// A copy of the members.
fn copy_members(alloc: Global, members: &[Member]) -> Result<Listed<Member>, Memory>
    ensures { IfOk result (λ copy. copy ≡ members.now) }
{
    let mut copy = Vec::new(alloc);
    for member in members {
        copy.push(Member {
            path: member.path.copy(alloc)?,
            place: member.place,
            seen: member.seen,
        })?;
    }
    Ok(Listed::from_vec(copy))
}

/// What stands of a family.
#[derive(Drop)]
pub struct Stand {
    /// Whether the family's directory is there.
    pub there: bool,
    /// Whether the directory in which it stands, or would stand, is there.
    pub parent: bool,
    /// The members, the newest first.
    pub members: Listed<Member>,
    /// The part files of members, which are copies that aren't whole, in order of bytes: those that are regular files.
    pub parts: Listed<Path>,
}

impl Stand {
    /// A copy of what stands.
    pub fn copy(&self, alloc: Global) -> Result<Stand, Memory>
        ensures { IfOk result (λ copy. copy ≡ self.now) }
    {
        let members = copy_members(alloc, self.members.as_slice())?;
        let parts = copy_paths(alloc, self.parts.as_slice())?;
        Ok(Stand {
            there: self.there,
            parent: self.parent,
            members,
            parts,
        })
    }
}

/// Why it isn't known what stands.
#[derive(Drop)]
pub enum StandStop {
    /// The call failed at this path.
    Call(CallKind, Path),
    /// The family's directory is named but is no directory, or this is the first member, in order of bytes, that isn't a
    /// regular file.
    NotFile(Path),
    Memory,
}
