// The directories that were listed.
use indexmap::IndexMap;
use lr_family::Listing;

// The listings that were taken, in order, and the place of each by the bytes of its directory.
#[derive(Drop)]
pub struct Listings {
    pub places: IndexMap<Vec<u8>, usize>,
    pub taken: Vec<Listing>,
}
