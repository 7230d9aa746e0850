// What a rotation keeps of a family.
ghost use Rattle.std.specs.Prelude.{◌≡◌};
ghost use Rattle.lr_chain.specs.Rotation.{is_expired};

use lr_family::Member;
use lr_rules::Count;

/// What is kept of a family at a moment: so many members, and none that was modified more than `maxage` days of 86,400
/// seconds before `now`, which is in seconds since 1970.
#[derive(Clone, Copy)]
pub struct Kept {
    pub count: Count,
    pub maxage: Option<u32>,
    pub now: i64,
}

/// Whether the member was modified more than `maxage` days of 86,400 seconds before `now`, which is in seconds since 1970,
/// as the member's moment is; any numbers will do, and no member is too old where there is no `maxage`.
pub fn is_expired(maxage: Option<u32>, now: i64, member: &Member) -> bool
    ensures { result ≡ is_expired maxage now member.now }
{
    let Some(days) = maxage else {
        return false;
    };
    let modified = member.seen.mtime;
    // Where so long before this moment is no moment that a file can have, none is older.
    match now.checked_sub(i64::from(days) * 86_400) {
        Some(oldest) => modified < oldest,
        None => false,
    }
}
