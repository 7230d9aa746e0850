// The files of which it was told that others may write them.
ghost use Rattle.std.specs.Prelude.{◌≡◌, false, [], ◌∷◌, ◌++◌, OnOk};
ghost use Rattle.std.specs.Str.{bytes_eq};
ghost use Rattle.std.specs.List.{list_any};

use indexmap::IndexSet;
use lr_rules::{Memory, Path};
use std::alloc::Global;
use std::marker::Model;

/// Paths of files, each once, in the order in which they were told. One is found among many as soon as among few.
/// Contracts see their list.
#[derive(Drop)]
pub struct Exposed {
    paths: IndexSet<Vec<u8>>,
}

impl Model for Exposed {
    ghost use Rattle.std.specs.Prelude.{List, map};
    ghost use Rattle.lr_rules.specs.declared.path.Path.{Path};

    ghost Value = { List Path };

    ghost view = { λ s. map (λ p. p.items) s.paths.keys };
}

impl Exposed {
    /// None so far.
    pub fn new(alloc: Global) -> Exposed
        ensures { result ≡ [] }
    {
        Exposed {
            paths: IndexSet::new(alloc),
        }
    }

    /// Whether the file is one of them.
    pub fn has(&self, file: &Path) -> bool
        ensures { result ≡ list_any (bytes_eq file.now) self.now }
    {
        self.paths.contains(file.bytes())
    }

    /// Adds a file that isn't one of them.
    pub fn add(&mut self, file: &Path) -> Result<(), Memory>
        requires { list_any (bytes_eq file.now) self.old ≡ false }
        ensures { OnOk result (self.new ≡ self.old ++ file.now ∷ []) }
    {
        let path = file.bytes().to_vec(*self.paths.allocator())?;
        self.paths.insert(path)?;
        Ok(())
    }
}
