// What a path can name.
ghost use Rattle.std.specs.Prelude.{◌≡◌};
ghost use Rattle.lr_host.specs.Looks.{is_dir};

/// What a path names on a disk.
#[derive(Clone, Copy, Debug, PartialEq, Eq)]
pub enum Thing {
    /// Nothing has the path.
    Nothing,
    /// The file with this identity.
    File(u64),
    Directory,
    /// Neither a file nor a directory.
    Other,
}

/// What a look can tell apart.
#[derive(Clone, Copy, Debug, PartialEq, Eq)]
pub enum Kind {
    File,
    Dir,
    Other,
}

/// What a look sees. The size is in bytes, the modification moment in seconds since 1970, the mode in permission
/// bits; they count for files alone.
#[derive(Clone, Copy, Debug, PartialEq, Eq)]
pub struct Seen {
    pub kind: Kind,
    pub size: u64,
    pub mtime: i64,
    pub mode: Option<u32>,
    /// Whether a user other than root and the one that runs the program may write it.
    pub exposed: bool,
}

/// Whether a look saw a directory.
pub fn shows_dir(look: Option<Seen>) -> bool
    ensures { result ≡ is_dir look }
{
    match look {
        Some(seen) => match seen.kind {
            Kind::Dir => true,
            Kind::File => false,
            Kind::Other => false,
        },
        None => false,
    }
}
