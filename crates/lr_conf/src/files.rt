// The files that are being read.
use lr_rules::{Memory, Path};
use std::alloc::Global;
use std::marker::Model;

/// The files that were entered and not left, the last of which is read. Contracts see their paths. There is room for 8.
#[derive(Drop)]
pub struct Files {
    paths: Vec<Path>,
}

impl Model for Files {
    ghost use Rattle.std.specs.Prelude.{List, ℕ, ◌≤◌, vec_capacity};

    ghost Value = { List (List ℕ) };

    ghost view = { λ f. f.paths.items };

    ghost invariant = { λ f. 8 ≤ vec_capacity f.paths };
}

impl Files {
    ghost use Rattle.std.specs.Prelude.{◌≡◌, ◌<◌, ◌-◌, [], ◌∷◌, ◌++◌, length, take, IfOk};
    ghost use Rattle.lr_conf.specs.Fields.{last_or};

    /// Room for 8 files.
    pub fn new(alloc: Global) -> Result<Files, Memory>
        ensures { IfOk result (λ files. files ≡ []) }
    {
        Ok(Files {
            paths: Vec::with_capacity(alloc, 8)?,
        })
    }

    pub fn enter(&mut self, path: Path)
        requires { length self.old < 8 }
        ensures { self.new ≡ self.old ++ path ∷ [] }
    {
        self.paths.push_reserved(path);
    }

    pub fn leave(&mut self)
        requires { 0 < length self.old }
        ensures { self.new ≡ take (length self.old - 1) self.old }
    {
        let _left = self.paths.pop();
    }

    pub fn len(&self) -> usize
        ensures { result ≡ length self.now }
    {
        self.paths.len()
    }

    /// The file that is read.
    pub fn top(&self) -> &Path
        requires { 0 < length self.now }
        ensures { result.now ≡ last_or [] self.now }
    {
        let paths = self.paths.as_slice();
        &paths[paths.len() - 1]
    }
}
