// A disk in memory, which contracts see as the journal of its steps.
ghost use Rattle.std.specs.Prelude.{◌≡◌, ◌≢◌, ◌<◌, ◌≤◌, ◌+◌, ◌↔◌, ◌∷◌, ◌++◌, true, pos, Some, List, ℕ, [], length, take, drop};
ghost use Rattle.std.specs.Prelude.{vec_len, vec_capacity, MatchResult, MatchOption, IfOk, OnOk, OnErr, IsTrue};
ghost use Rattle.lr_host.specs.declared.entry.Entry.{Entry};
ghost use Rattle.lr_host.specs.declared.entry.Entry.TheVariants as entry;
ghost use Rattle.lr_host.specs.World.{World, world, past, names, opened};
ghost use Rattle.lr_host.specs.declared.thing.Thing.TheVariants as thing;
ghost use Rattle.lr_host.specs.Fits.{Fits, IsCut, SeesThing, GivesPiece, IsFileAt, IsDirectoryAt};
ghost use Rattle.lr_host.specs.Told.{IsWriters};
ghost use Rattle.lr_host.specs.Opening.{IsValid, IsJournal};
ghost use Rattle.lr_host.specs.Sets.{LogSet};
ghost use Rattle.lr_host.specs.Safe.{IsSafe};
ghost use Rattle.lr_disk.specs.Tree.{IsTree};
ghost use Rattle.lr_disk.specs.State.{ShowsWorld, EntryHasRoom, with_entry, opened_journal};
ghost use Rattle.lr_disk.specs.Bytes.{GivesAll, HasBytes};

use crate::apply::apply;
use crate::cuts::{may_cut, may_keep};
use crate::entries::{cuts, lists, looks, reads};
use crate::file::read_bytes;
use crate::holds::hold_of;
use crate::lengths::are_apart;
use crate::listing::add_names;
use crate::names::thing_at;
use crate::opened::open;
use crate::prepare::prepare;
use crate::state::State;
use crate::valid::is_valid;
use lr_host::{Entry, Journal, Kind, Opening, Seen, Thing};
use lr_rules::{Listed, Memory, Path, Text};
use std::alloc::{AllocError, Global};
use std::marker::Model;
use std::mem::replace;

/// A disk in memory, with the journal of its entries.
#[derive(Drop)]
pub struct Disk {
    alloc: Global,
    journal: Journal,
    state: State,
    // Holds nothing. While a run stands, it has room for all entries and the run's end.
    room: Vec<Entry>,
}

impl Model for Disk {
    ghost use Rattle.lr_host.specs.declared.journal.Journal.{Journal};

    ghost Value = { Journal };

    ghost use Rattle.std.specs.Prelude.{vec_len, vec_capacity};
    ghost use Rattle.lr_disk.specs.State.{IsDisk};

    ghost view = { λ d. d.journal };

    ghost invariant = { λ d. IsDisk d.state (vec_len d.room) (vec_capacity d.room) d.journal };
}

// Adds an entry; where there is no memory for it, it comes back.
fn add(alloc: Global, entries: &mut Listed<Entry>, entry: Entry) -> Result<(), Entry>
    ensures { MatchResult result (λ _. entries.new ≡ entries.old ++ entry ∷ [])
        (λ back. (back ≡ entry) × (entries.new ≡ entries.old)) }
{
    let mut items = replace(entries, Listed::new(alloc)).into_vec();
    let pushed = items.push(entry);
    *entries = Listed::from_vec(items);
    match pushed {
        Ok(()) => Ok(()),
        Err(failed) => Err(failed.value),
    }
}

// Adds an entry by moving all of them to a vector that has the room.
fn add_in_room(alloc: Global, entries: &mut Listed<Entry>, room: &mut Vec<Entry>, entry: Entry)
    requires empty { vec_len room.old ≡ 0 }
    requires room { length entries.old < vec_capacity room.old }
    ensures entries { entries.new ≡ entries.old ++ entry ∷ [] }
    ensures empty { vec_len room.new ≡ 0 }
{
    let mut items = replace(entries, Listed::new(alloc)).into_vec();
    let mut all = replace(room, Vec::new(alloc));
    all.append(&mut items).unwrap();
    all.push(entry).unwrap();
    *entries = Listed::from_vec(all);
}

// Makes room for an entry behind so many, for what it changes, and for the end of a run. Nothing changes.
fn make_ready(
    alloc: Global,
    state: &mut State,
    room: &mut Vec<Entry>,
    count: usize,
    entry: &Entry,
) -> Result<(), AllocError>
    requires { IsTree state.old.tree }
    ensures same { (w : World) → ShowsWorld state.old w → ShowsWorld state.new w }
    ensures ready { OnOk result (EntryHasRoom state.new entry.now) }
    ensures room { OnOk result (vec_len room.new + (count + 2) ≤ vec_capacity room.new) }
    ensures len { vec_len room.new ≡ vec_len room.old }
    ensures wider { vec_capacity room.old ≤ vec_capacity room.new }
{
    prepare(alloc, state, entry)?;
    let Some(more) = count.checked_add(2) else {
        return Err(AllocError);
    };
    room.reserve(more)
}

// Lets an entry go, for which there was no memory.
fn let_go(_entry: Entry) -> Memory {
    Memory
}

fn newest(entries: &Listed<Entry>) -> &Entry
    requires { 0 < length entries.now }
    ensures { (es : List Entry) (e : Entry) → entries.now ≡ es ++ e ∷ [] → result.now ≡ e }
{
    let items = entries.as_slice();
    &items[items.len() - 1]
}

// The state of an opening, None where the opening isn't one of a disk.
fn open_valid(alloc: Global, opening: &Opening) -> Result<Option<State>, AllocError>
    ensures { IfOk result (λ made. MatchOption made (¬ IsValid opening.now)
        (λ state. IsValid opening.now × ShowsWorld state (opened opening.now))) }
{
    let state = open(alloc, opening)?;
    if is_valid(opening, &state.tree.names) {
        Ok(Some(state))
    } else {
        Ok(None)
    }
}

impl Disk {
    /// A disk at its opening, with no entries; None where the opening isn't one of a disk. After `Memory` there is no
    /// disk, and the opening is gone.
    pub fn new(alloc: Global, opening: Opening) -> Result<Option<Disk>, Memory>
        ensures { IfOk result (λ made. MatchOption made (¬ IsValid opening)
            (λ disk. (disk ≡ opened_journal opening) × IsValid opening × ((s : LogSet) → IsSafe s (past disk)))) }
    {
        match open_valid(alloc, &opening)? {
            Some(state) => {
                let entries = Listed::new(alloc);
                let room = Vec::new(alloc);
                Ok(Some(Disk {
                    alloc,
                    journal: Journal { opening, entries },
                    state,
                    room,
                }))
            }
            None => Ok(None),
        }
    }

    /// The journal, which is one of a disk.
    pub fn journal(&self) -> &Journal
        ensures is { result.now ≡ self.now }
        ensures journal { IsJournal (past self.now) }
    {
        &self.journal
    }

    /// The bytes of the regular file that has the path; None where none has it.
    pub fn file(&self, path: &Path) -> Option<&[u8]>
        ensures { MatchOption result (¬ (IsFileAt (names (world (past self.now))) path.now))
            (λ bytes. HasBytes (world (past self.now)) (names (world (past self.now)) path.now) bytes.now) }
    {
        match thing_at(&self.state.tree.names, path.bytes()) {
            Thing::File(identity) => Some(self.state.files[identity as usize].bytes.as_slice()),
            _ => None,
        }
    }

    /// Takes an entry that fits into the journal, and does what it does; where there is no memory, it comes back, and all
    /// is as it was.
    pub fn enter(&mut self, entry: Entry) -> Result<(), Entry>
        requires { Fits (world (past self.old)) entry }
        ensures { MatchResult result (λ _. self.new ≡ with_entry self.old entry) (λ back. (back ≡ entry) × (self.new ≡ self.old)) }
    {
        let count = self.journal.entries.len();
        let Ok(()) = make_ready(self.alloc, &mut self.state, &mut self.room, count, &entry) else {
            return Err(entry);
        };
        add(self.alloc, &mut self.journal.entries, entry)?;
        apply(self.alloc, &mut self.state, newest(&self.journal.entries));
        Ok(())
    }

    // Takes an entry that fits; where there is no memory, all is as it was.
    fn leave(&mut self, entry: Entry) -> Result<(), Memory>
        requires { Fits (world (past self.old)) entry }
        ensures { MatchResult result (λ _. self.new ≡ with_entry self.old entry) (λ _. self.new ≡ self.old) }
    {
        match self.enter(entry) {
            Ok(()) => Ok(()),
            Err(back) => Err(let_go(back)),
        }
    }

    /// Ends the run that stands. It can't fail: the room for the entry was made before.
    pub fn end(&mut self)
        requires { (world (past self.old)).running ≡ true }
        ensures { self.new ≡ with_entry self.old entry.Ends }
    {
        let added = add(self.alloc, &mut self.journal.entries, Entry::Ends);
        if let Err(entry) = added {
            add_in_room(self.alloc, &mut self.journal.entries, &mut self.room, entry);
        }
    }

    /// How many name changes are pending.
    pub fn unsynced(&self) -> usize
        ensures { result ≡ length (world (past self.now)).pending }
    {
        self.state.tree.changes.len()
    }

    /// Whether the machine may stop so that of the pending name changes, the oldest of which has place 0, those at these
    /// places stay, and each listed file (identity, length in bytes) is cut to its length. After `Memory` it isn't known.
    pub fn allows(&self, kept: &[usize], lengths: &[(u64, u64)]) -> Result<bool, Memory>
        ensures { IfOk result (λ yes. IsTrue yes ↔ IsCut (world (past self.now)) kept.now lengths.now) }
    {
        if !may_keep(&self.state.tree.changes, kept) {
            return Ok(false);
        }
        if !are_apart(lengths) {
            return Ok(false);
        }
        Ok(may_cut(self.alloc, &self.state, kept, lengths)?)
    }

    /// The machine stops so, as `allows` says that it may, and writers let go. What is left counts as synced. After
    /// `Memory` all is as it was.
    pub fn cut(&mut self, kept: &[usize], lengths: &[(u64, u64)]) -> Result<(), Memory>
        requires { IsCut (world (past self.old)) kept.now lengths.now }
        ensures entry { MatchResult result (λ _. self.new ≡ with_entry self.old (entry.Cut kept.now lengths.now))
            (λ _. self.new ≡ self.old) }
        ensures safe { OnOk result ((s : LogSet) → IsSafe s (past self.old) → IsSafe s (past self.new)) }
    {
        let entry = cuts(self.alloc, kept, lengths)?;
        self.leave(entry)
    }

    /// What the path names.
    pub fn thing(&self, path: &Path) -> Thing
        ensures { result ≡ names (world (past self.now)) path.now }
    {
        thing_at(&self.state.tree.names, path.bytes())
    }

    /// Whether something has the path.
    pub fn is_named(&self, path: &Path) -> bool
        ensures { IsTrue result ↔ (names (world (past self.now)) path.now ≢ thing.Nothing) }
    {
        thing_at(&self.state.tree.names, path.bytes()) != Thing::Nothing
    }

    /// Whether it is a writer's entry, and fits.
    pub fn is_due(&self, entry: &Entry) -> bool
        ensures { IsTrue result ↔ (IsWriters entry.now × Fits (world (past self.now)) entry.now) }
    {
        match entry {
            Entry::Attach {
                writer,
                path,
                at: _,
            } => self.can_attach(*writer, path),
            Entry::Feed {
                writer,
                bytes: _,
                at: _,
            } => self.holds(*writer),
            Entry::Flush { writer } => self.holds(*writer),
            Entry::Detach { writer } => self.holds(*writer),
            _ => false,
        }
    }

    fn holds(&self, writer: u32) -> bool
        ensures { IsTrue result ↔ ((g : ℕ) × ((world (past self.now)).holds writer ≡ Some g)) }
    {
        hold_of(&self.state.holds, writer).is_some()
    }

    fn can_attach(&self, writer: u32, path: &Path) -> bool
        ensures { IsTrue result ↔ Fits (world (past self.now)) (entry.Attach writer path.now (pos 0)) }
    {
        if hold_of(&self.state.holds, writer).is_some() {
            return false;
        }
        match thing_at(&self.state.tree.names, path.bytes()) {
            Thing::Nothing => {
                thing_at(&self.state.tree.names, path.parent_bytes()) == Thing::Directory
            }
            Thing::File(_) => true,
            _ => false,
        }
    }

    fn see(&self, path: &Path) -> Option<Seen>
        ensures { SeesThing (world (past self.now)) (names (world (past self.now)) path.now) result }
    {
        match thing_at(&self.state.tree.names, path.bytes()) {
            Thing::Nothing => None,
            Thing::File(identity) => {
                let file = &self.state.files[identity as usize];
                Some(Seen {
                    kind: Kind::File,
                    size: file.bytes.len() as u64,
                    mtime: file.mtime,
                    mode: file.mode,
                    exposed: is_exposed(file.mode),
                })
            }
            Thing::Directory => Some(seen_as(Kind::Dir)),
            Thing::Other => Some(seen_as(Kind::Other)),
        }
    }

    /// Looks at the path: what stands there, its size in bytes; None where nothing has it. After `Memory` all is as it
    /// was.
    pub fn look(&mut self, path: &Path) -> Result<Option<Seen>, Memory>
        ensures { MatchResult result (λ seen. (self.new ≡ with_entry self.old (entry.Look path.now seen))
            × Fits (world (past self.old)) (entry.Look path.now seen)) (λ _. self.new ≡ self.old) }
    {
        let seen = self.see(path);
        let entry = looks(self.alloc, path, seen)?;
        self.leave(entry)?;
        Ok(seen)
    }

    /// Adds the names of what stands in the directory, behind what the vector has. After `Memory` the disk is as it was,
    /// and some of the names may stand in the vector.
    pub fn list(&mut self, alloc: Global, dir: &Path, into: &mut Vec<Text>) -> Result<(), Memory>
        requires { IsDirectoryAt (names (world (past self.old))) dir.now }
        ensures kept { take (length into.old.items) into.new.items ≡ into.old.items }
        ensures ok { let e = entry.List dir.now (drop (length into.old.items) into.new.items) in OnOk result
            ((self.new ≡ with_entry self.old e) × Fits (world (past self.old)) e) }
        ensures err { OnErr result (self.new ≡ self.old) }
    {
        let start = into.len();
        add_names(alloc, into, &self.state.tree.names, dir)?;
        let entry = lists(self.alloc, dir, &into[start..])?;
        self.leave(entry)
    }

    fn give(&self, path: &Path, from: u64, into: &mut [u8]) -> usize
        requires room { 0 < length into.old }
        requires file { IsFileAt (names (world (past self.now))) path.now }
        ensures bound { result ≤ length into.new }
        ensures gives { GivesPiece (world (past self.now)) (names (world (past self.now)) path.now) from (take result into.new) }
        ensures all { GivesAll (world (past self.now)) (names (world (past self.now)) path.now) from (length into.new) result }
    {
        match thing_at(&self.state.tree.names, path.bytes()) {
            Thing::File(identity) => {
                read_bytes(&self.state.files[identity as usize].bytes, from, into)
            }
            _ => 0,
        }
    }

    /// Reads bytes of a file from a place on, in bytes from its begin: all that there are, as far as there is room. After
    /// `Memory` the disk is as it was, and bytes may stand in `into`.
    pub fn read(&mut self, path: &Path, from: u64, into: &mut [u8]) -> Result<usize, Memory>
        requires room { 0 < length into.old }
        requires file { IsFileAt (names (world (past self.old))) path.now }
        ensures bound { IfOk result (λ count. count ≤ length into.new) }
        ensures read { MatchResult result (λ count. let e = entry.Reads path.now from (take count into.new)
            in (self.new ≡ with_entry self.old e) × Fits (world (past self.old)) e) (λ _. self.new ≡ self.old) }
        ensures all { IfOk result (λ count. GivesAll (world (past self.old)) (names (world (past self.old)) path.now) from
            (length into.new) count) }
    {
        let count = self.give(path, from, into);
        let entry = reads(self.alloc, path, from, &into[..count])?;
        self.leave(entry)?;
        Ok(count)
    }
}

// Whether its group or others may write a file of this mode, where one is told.
fn is_exposed(mode: Option<u32>) -> bool {
    match mode {
        Some(mode) => mode & 0o022 != 0,
        None => false,
    }
}

fn seen_as(kind: Kind) -> Seen
    ensures { result.kind ≡ kind }
{
    Seen {
        kind,
        size: 0,
        mtime: 0,
        mode: None,
        exposed: false,
    }
}
