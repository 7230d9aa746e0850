// The newest member first.
ghost use Rattle.std.specs.Prelude.{◌≡◌};
ghost use Rattle.std.specs.List.Sorted.{IsPermutation};
ghost use Rattle.lr_family.specs.Stands.{key_in, by_newness, HaveOwnPlaces, AreNewestFirst};

use crate::place::Place;
use crate::stand::Member;
use std::cmp::Ordering;

/// A place as one number, greater where the member is newer: of numbers the lower one, of stamps the later moment, or of
/// one moment the greater serial number. It compares the places of one family.
pub fn key_of(place: &Place) -> i128
    ensures { result ≡ key_in place.now }
{
    match *place {
        Place::Number(number) => -i128::from(number) * 4_294_967_296,
        Place::Stamp(seconds, serial) => i128::from(seconds) * 4_294_967_296 + i128::from(serial),
    }
}

fn compare(a: &Member, b: &Member) -> Ordering
    ensures { result ≡ by_newness a.now b.now }
{
    key_of(&b.place).cmp(&key_of(&a.place))
}

/// Puts the newest member first.
pub fn sort_newest(members: &mut Vec<Member>)
    requires { HaveOwnPlaces members.old.items }
    ensures same { IsPermutation members.old.items members.new.items }
    ensures newest { AreNewestFirst members.new.items }
{
    members.sort_unstable_by(|a, b| compare(a, b));
}
