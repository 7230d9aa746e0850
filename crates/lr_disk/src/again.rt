// A disk that a journal had, done again from its entries.
ghost use Rattle.std.specs.Prelude.{◌≡◌, ◌<◌, ℕ, List, length, IfOk, OnOk, OnErr};
ghost use Rattle.lr_host.specs.Lists.{AreDistinct};
ghost use Rattle.lr_host.specs.World.{World, names, opened, effect};
ghost use Rattle.lr_host.specs.Opening.{IsValid};
ghost use Rattle.lr_disk.specs.Pairs.{keys};
ghost use Rattle.lr_disk.specs.Names.{named_in};
ghost use Rattle.lr_disk.specs.State.{ShowsWorld};

use crate::apply::apply;
use crate::names::thing_at;
use crate::opened::open;
use crate::prepare::prepare;
use crate::state::State;
use lr_host::{Entry, Opening, Thing};
use lr_rules::{Memory, Path};
use std::alloc::Global;
use std::marker::Model;

/// A disk that follows the entries of a journal, each of which it is lent: it keeps none of them.
#[derive(Drop)]
pub struct Replay {
    alloc: Global,
    state: State,
}

impl Model for Replay {
    ghost use Rattle.lr_disk.specs.declared.state.State.{State};

    ghost Value = { State };

    ghost view = { λ r. r.state };

    ghost use Rattle.lr_host.specs.World.{World};
    ghost use Rattle.lr_disk.specs.State.{ShowsWorld};

    ghost invariant = { λ r. (w : World) × ShowsWorld r.state w };
}

impl Replay {
    /// The disk as it was found.
    pub fn new(alloc: Global, opening: &Opening) -> Result<Replay, Memory>
        requires { IsValid opening.now }
        ensures { IfOk result (λ r. ShowsWorld r (opened opening.now)) }
    {
        let state = open(alloc, opening)?;
        Ok(Replay { alloc, state })
    }

    /// Does what the entry did. After `Memory` the disk is as it was.
    pub fn follow(&mut self, entry: &Entry) -> Result<(), Memory>
        ensures ok { OnOk result ((w : World) → ShowsWorld self.old w → ShowsWorld self.new (effect w entry.now)) }
        ensures err { OnErr result ((w : World) → ShowsWorld self.old w → ShowsWorld self.new w) }
    {
        prepare(self.alloc, &mut self.state, entry)?;
        apply(self.alloc, &mut self.state, entry);
        Ok(())
    }

    /// What the path names.
    pub fn thing(&self, path: &Path) -> Thing
        ensures { (w : World) → ShowsWorld self.now w → result ≡ names w path.now }
    {
        thing_at(&self.state.tree.names, path.bytes())
    }

    /// What each path names; a path that isn't here names nothing.
    pub fn named(&self) -> &[(Path, Thing)]
        ensures once { AreDistinct (keys result.now) }
        ensures named { (w : World) → ShowsWorld self.now w → (x : List ℕ) → named_in result.now x ≡ names w x }
    {
        self.state.tree.names.as_slice()
    }

    /// The length in bytes of the file with this identity, which was drawn.
    pub fn size_of(&self, identity: u64) -> u64
        ensures { (w : World) → ShowsWorld self.now w → identity < w.drawn → result ≡ length (w.files identity).bytes }
    {
        match self.state.files.get(identity as usize) {
            Some(file) => file.bytes.len() as u64,
            None => 0,
        }
    }
}
