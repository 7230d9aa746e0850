// The places of members, and why a place has no name.
ghost use Rattle.std.specs.Prelude.{◌≡◌};
ghost use Rattle.lr_family.specs.Stands.{number_in};

/// The place of a member in its family.
#[derive(Clone, Copy, PartialEq, Eq)]
pub enum Place {
    /// Of a numbered member: its number less the start; 0 is the newest.
    Number(u32),
    /// Of a dated member: the moment of its stamp, in seconds since 1970, and its serial number, 0 where it has none.
    Stamp(i64, u32),
}

/// The number of a place, counted from 0; a stamp has none.
pub fn number_at(place: Place) -> u32
    ensures { result ≡ number_in place }
{
    match place {
        Place::Number(number) => number,
        Place::Stamp(_, _) => 0,
    }
}

/// Why a place has no name.
#[derive(Clone, Copy)]
pub enum NameStop {
    /// The member's number would be above 4,294,967,295.
    TooHigh,
    Memory,
}
