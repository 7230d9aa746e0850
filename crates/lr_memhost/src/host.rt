// The host in memory: writers act before each call, listed calls fail, and the machine may stop.
ghost use Rattle.std.specs.Prelude.{◌≡◌, ◌<◌, ◌∷◌, ◌++◌, [], true, false, length, OnErr, OnOk, IfOk, MatchOption};
ghost use Rattle.lr_host.specs.declared.entry.Entry.TheVariants as entry;
ghost use Rattle.lr_host.specs.World.{world, past, names};
ghost use Rattle.lr_host.specs.Fits.{IsFileAt, IsCut};
ghost use Rattle.lr_host.specs.Opening.{IsValid, IsJournal};
ghost use Rattle.lr_host.specs.Sets.{LogSet};
ghost use Rattle.lr_host.specs.Safe.{IsSafe};
ghost use Rattle.lr_disk.specs.State.{opened_journal, with_entry};
ghost use Rattle.lr_disk.specs.Bytes.{HasBytes};
ghost use Rattle.lr_memhost.specs.Acts.{View};
ghost use Rattle.lr_memhost.specs.How.{without_stops};

mod calls;
mod parts;

use crate::act::{Act, Failing, drop_stops};
use lr_disk::Disk;
use lr_host::{Journal, Opening, Thing};
use lr_rules::{Ended, Memory, Path};
use std::alloc::Global;
use std::marker::Model;

/// The opening isn't one of a disk, or the piece is 0; or there was no memory.
#[derive(Clone, Copy, Debug, PartialEq, Eq)]
pub enum MemFault {
    BadOpening,
    Memory,
}

/// The machine can't stop so now; or there was no memory.
#[derive(Clone, Copy, Debug, PartialEq, Eq)]
pub enum CutFault {
    NotAllowed,
    Memory,
}

/// A host over a disk in memory.
#[derive(Drop)]
pub struct MemHost {
    alloc: Global,
    disk: Disk,
    acts: Vec<Act>,
    failing: Vec<Failing>,
    ends: Vec<Ended>,
    piece: usize,
    calls: u64,
    faults: u64,
    starved: u64,
    bad_ends: u64,
    held: u64,
    // A Stop came.
    down: bool,
    // The run has the lock; another has it.
    mine: bool,
    another: bool,
}

impl Model for MemHost {
    ghost use Rattle.lr_memhost.specs.Acts.{View};

    ghost Value = { View };

    ghost view = { λ h. record {
      journal = h.disk;
      acts = h.acts.items;
      failing = h.failing.items;
      calls = h.calls;
      faults = h.faults;
      starved = h.starved;
      down = h.down;
      rest = record {
        ends = h.ends.items;
        piece = h.piece;
        mine = h.mine;
        another = h.another;
        bad_ends = h.bad_ends;
        held = h.held;
      };
    } };

    ghost use Rattle.std.specs.Prelude.{◌<◌};

    ghost invariant = { λ h. 0 < h.piece };
}

impl MemHost {
    /// A disk as this opening has it, before which writers act so and of whose calls these fail. `ends` are the ends
    /// of the programs that are run, in order; past them each ends with 0. An append takes at most `piece` bytes.
    /// Calls are numbered from 0 through the host's life.
    pub fn new(
        alloc: Global,
        opening: Opening,
        acts: Vec<Act>,
        failing: Vec<Failing>,
        ends: Vec<Ended>,
        piece: usize,
    ) -> Result<MemHost, MemFault>
        ensures ok { IfOk result (λ h. h ≡ record {
          journal = opened_journal opening;
          acts = acts.items;
          failing = failing.items;
          calls = 0;
          faults = 0;
          starved = 0;
          down = false;
          rest = record { ends = ends.items; piece = piece; mine = false; another = false; bad_ends = 0; held = 0 };
        }) }
        ensures safe { IfOk result (λ h. (s : LogSet) → IsSafe s (past h.journal)) }
        ensures valid { OnOk result (IsValid opening × (0 < piece)) }
        ensures bad { result ≡ Err MemFault.BadOpening → ¬ (IsValid opening × (0 < piece)) }
    {
        if piece == 0 {
            return Err(MemFault::BadOpening);
        }
        match Disk::new(alloc, opening) {
            Ok(Some(disk)) => Ok(MemHost {
                alloc,
                disk,
                acts,
                failing,
                ends,
                piece,
                calls: 0,
                faults: 0,
                starved: 0,
                bad_ends: 0,
                held: 0,
                down: false,
                mine: false,
                another: false,
            }),
            Ok(None) => Err(MemFault::BadOpening),
            Err(Memory) => Err(MemFault::Memory),
        }
    }

    /// Lists one more failing call; the host is as it was where there is no memory.
    pub fn fail(&mut self, f: Failing) -> Result<(), Memory>
        ensures ok { OnOk result (self.new ≡ record self.old { failing = self.old.failing ++ f ∷ [] }) }
        ensures err { OnErr result (self.new ≡ self.old) }
    {
        self.failing.push(f)?;
        Ok(())
    }

    /// Adds an act of a writer behind those that are still to come; the host is as it was where there is no memory.
    pub fn act(&mut self, a: Act) -> Result<(), Memory>
        ensures ok { OnOk result (self.new ≡ record self.old { acts = self.old.acts ++ a ∷ [] }) }
        ensures err { OnErr result (self.new ≡ self.old) }
    {
        self.acts.push(a)?;
        Ok(())
    }

    /// Ends what a `Stop` began, and frees the lock, whoever has it. A `Stop` that hasn't come goes too: the machine that it
    /// would have stopped isn't there any more.
    pub fn revive(&mut self)
        ensures { self.new ≡ record self.old {
          down = false;
          failing = without_stops self.old.failing;
          rest = record self.old.rest { mine = false; another = false };
        } }
    {
        self.down = false;
        drop_stops(&mut self.failing);
        self.mine = false;
        self.another = false;
    }

    /// Lets another take the lock, or give it back; a lock that the run has stays its own.
    pub fn hold(&mut self, by_another: bool)
        ensures { self.new ≡ record self.old { rest = record self.old.rest { another = by_another } } }
    {
        self.another = by_another;
    }

    /// The machine stops: of the pending name changes, the oldest of which has place 0, those at these places stay, each
    /// listed file (identity, length in bytes) is cut to its length, and writers let go. The places rise, and with each
    /// change they hold every older one that shares a name with it. What is left counts as synced and durable. After
    /// `NotAllowed` and `Memory` all is as it was.
    pub fn cut(&mut self, kept: &[usize], lengths: &[(u64, u64)]) -> Result<(), CutFault>
        ensures ok { OnOk result (self.new ≡ record self.old
            { journal = with_entry self.old.journal (entry.Cut kept.now lengths.now) }) }
        ensures allowed { OnOk result (IsCut (world (past self.old.journal)) kept.now lengths.now) }
        ensures refused { result ≡ Err CutFault.NotAllowed → ¬ IsCut (world (past self.old.journal)) kept.now lengths.now }
        ensures err { OnErr result (self.new ≡ self.old) }
        ensures safe { OnOk result ((s : LogSet) → IsSafe s (past self.old.journal) → IsSafe s (past self.new.journal)) }
    {
        match self.disk.allows(kept, lengths) {
            Ok(true) => {}
            Ok(false) => return Err(CutFault::NotAllowed),
            Err(Memory) => return Err(CutFault::Memory),
        }
        match self.disk.cut(kept, lengths) {
            Ok(()) => Ok(()),
            Err(Memory) => Err(CutFault::Memory),
        }
    }

    /// How many name changes are pending.
    pub fn unsynced(&self) -> usize
        ensures { result ≡ length (world (past self.now.journal)).pending }
    {
        self.disk.unsynced()
    }

    /// The journal so far, which is one of a disk.
    pub fn journal(&self) -> &Journal
        ensures is { result.now ≡ self.now.journal }
        ensures journal { IsJournal (past self.now.journal) }
    {
        self.disk.journal()
    }

    /// What the path names: with it a caller can test what a call asks for.
    pub fn thing(&self, path: &Path) -> Thing
        ensures { result ≡ names (world (past self.now.journal)) path.now }
    {
        self.disk.thing(path)
    }

    /// The bytes of the regular file that has the path.
    pub fn file(&self, path: &Path) -> Option<&[u8]>
        ensures { let w = world (past self.now.journal) in MatchOption result (¬ (IsFileAt (names w) path.now))
            (λ bytes. HasBytes w (names w path.now) bytes.now) }
    {
        self.disk.file(path)
    }

    /// How many calls there were; a count at its type's end stands still, as do the others.
    pub fn calls(&self) -> u64
        ensures { result ≡ self.now.calls }
    {
        self.calls
    }

    /// How often there was no memory for an act or a call.
    pub fn starved(&self) -> u64
        ensures { result ≡ self.now.starved }
    {
        self.starved
    }
}
