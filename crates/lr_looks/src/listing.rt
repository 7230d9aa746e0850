// Each directory is listed once.
ghost use Rattle.std.specs.Prelude.{◌≡◌, ◌≢◌, ◌++◌, ◌∷◌, [], IfOk, IfErr, OnOk, Err, length};
ghost use Rattle.lr_host.specs.Told.{Left, Onward, Rose};
ghost use Rattle.lr_family.specs.Stands.{IsFailedStand};
ghost use Rattle.lr_family.specs.declared.stand.StandStop.TheVariants as stop;
ghost use Rattle.lr_looks.specs.Internal.{AreListings, TakesListing, LacksListing, NoListing, IsListedAt, places_in};
ghost use Rattle.lr_looks.specs.Families.{WasNotListed};

use crate::listings::Listings;
use lr_family::{Listing, StandStop};
use lr_host::Host;
use lr_rules::{Memory, Path};
use std::alloc::Global;

// Adds a listing of a directory that wasn't listed yet; its place.
fn add_listing(alloc: Global, listings: &mut Listings, listing: Listing) -> Result<usize, Memory>
    requires known { AreListings listings.old }
    requires new { WasNotListed listings.old.taken.items listing.dir }
    ensures place { IfOk result (λ place. place ≡ length listings.old.taken.items) }
    ensures taken { OnOk result (listings.new.taken.items ≡ listings.old.taken.items ++ listing ∷ []) }
    ensures known { OnOk result (AreListings listings.new) }
{
    let place = listings.taken.len();
    let key = listing.dir().bytes().to_vec(alloc)?;
    listings.places.insert(key, place)?;
    listings.taken.push(listing)?;
    Ok(place)
}

// The place of the listing of a directory that was listed before.
fn place_of(listings: &Listings, dir: &Path) -> Option<usize>
    ensures { result ≡ places_in listings.now dir.now }
{
    listings.places.get(dir.bytes()).copied()
}

// Lists a directory that wasn't listed before; the place of its listing.
fn take_listing<H: Host>(
    alloc: Global,
    host: &mut H,
    listings: &mut Listings,
    dir: &Path,
) -> Result<usize, StandStop>
    requires known { AreListings listings.old }
    requires new { WasNotListed listings.old.taken.items dir.now }
    ensures told { IfOk result (λ place. Left (TakesListing listings.old.taken.items dir.now listings.new.taken.items place)
        (H.told host.old) (H.told host.new)) }
    ensures there { IfOk result (λ place. IsListedAt listings.new.taken.items place dir.now) }
    ensures stopped { IfErr result (λ why. why ≢ stop.Memory
        → Left (LacksListing listings.old.taken.items dir.now why listings.new.taken.items) (H.told host.old) (H.told host.new)) }
    ensures part { IfErr result (λ why. Left (NoListing listings.old.taken.items dir.now why) (H.told host.old) (H.told host.new)) }
    ensures known { OnOk result (AreListings listings.new) }
    ensures same { IfErr result (λ why. why ≢ stop.Memory → AreListings listings.new) }
    ensures cause { IfErr result (λ why. IsFailedStand why → Rose (H.counts host.old).faults (H.counts host.new).faults) }
    ensures counts { Onward (H.counts host.old) (H.counts host.new) }
{
    match Listing::take(alloc, host, dir) {
        Ok(listing) => match add_listing(alloc, listings, listing) {
            Ok(place) => Ok(place),
            Err(_) => Err(StandStop::Memory),
        },
        Err(why) => Err(why),
    }
}

// The place of the listing of a directory, which is taken where it wasn't before.
pub fn listing_at<H: Host>(
    alloc: Global,
    host: &mut H,
    listings: &mut Listings,
    dir: &Path,
) -> Result<usize, StandStop>
    requires { AreListings listings.old }
    ensures told { IfOk result (λ place. Left (TakesListing listings.old.taken.items dir.now listings.new.taken.items place)
        (H.told host.old) (H.told host.new)) }
    ensures there { IfOk result (λ place. IsListedAt listings.new.taken.items place dir.now) }
    ensures stopped { IfErr result (λ why. why ≢ stop.Memory
        → Left (LacksListing listings.old.taken.items dir.now why listings.new.taken.items) (H.told host.old) (H.told host.new)) }
    ensures part { IfErr result (λ why. Left (NoListing listings.old.taken.items dir.now why) (H.told host.old) (H.told host.new)) }
    ensures known { OnOk result (AreListings listings.new) }
    ensures same { IfErr result (λ why. why ≢ stop.Memory → AreListings listings.new) }
    ensures cause { IfErr result (λ why. IsFailedStand why → Rose (H.counts host.old).faults (H.counts host.new).faults) }
    ensures counts { Onward (H.counts host.old) (H.counts host.new) }
{
    match place_of(listings, dir) {
        Some(place) => Ok(place),
        None => take_listing(alloc, host, listings, dir),
    }
}
