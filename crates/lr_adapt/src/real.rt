// The real file system as a host. It tells nothing, since no contract can say what a file holds: here the system's
// calls are trusted.
ghost use Rattle.std.specs.Prelude.{◌≡◌, ◌≤◌, is_some, false, Ok, IfOk, OnErr};
ghost use Rattle.lr_host.specs.Told.{Rose};

use crate::calls::{
    Moved, input_of, look_at, names_at, read_followed, rename_at, run_program, saw_exposed,
    sync_dir_at, take_lock, unlink_at,
};
use crate::dirs::make_dir_at;
use crate::held::{Held, read_held, truncate_held};
use crate::made::{Made, append_made, give_made, make_new_at, sync_made};
use crate::opened::Owner;
use crate::streams::Streams;
use crate::ways::Ways;
use lr_host::{CallFault, Host, ListFault, RunFault, Seen};
use lr_rules::{Ended, Moment, Path, Rules, Text};
use std::alloc::Global;
use std::fs::File;
use std::io;
use std::io::ErrorKind;
use std::process::Processes;
use std::rt::Files;
use std::time::Clock;

/// One more; a count at its type's end stands still.
pub(crate) fn raise(count: &mut u64)
    ensures rose { Rose count.old count.new }
    ensures grows { count.old ≤ count.new }
{
    *count = count.saturating_add(1);
}

/// The file system of the machine, with counts of the calls that failed, the programs that ended badly and the locks
/// that another had.
#[derive(Drop)]
pub struct RealHost<R> {
    rt: R,
    // What keeps the files below off the numbers of the standard streams.
    streams: Streams,
    // The lock of the run, which closing it gives back.
    lock: Option<File>,
    faults: u64,
    bad_ends: u64,
    held: u64,
    // The directories that the calls' paths stand in.
    ways: Ways,
    moved: Option<Moved>,
    made: Option<Made>,
    // The file that the last read opened.
    reading: Option<Held>,
    // Whether the last look that followed links saw what others may write.
    exposed: bool,
    // Whether it is lent to a call that only reads.
    only_reads: bool,
}

impl<R: Files<File = File>> RealHost<R> {
    /// The file system that the runtime reaches.
    pub fn new(rt: R) -> RealHost<R>
        ensures faults { result.faults ≡ 0 }
        ensures bad_ends { result.bad_ends ≡ 0 }
        ensures held { result.held ≡ 0 }
        ensures lock { is_some result.lock ≡ false }
    {
        let streams = Streams::taken(&rt);
        let ways = Ways::new(&rt);
        RealHost {
            rt,
            streams,
            lock: None,
            faults: 0,
            bad_ends: 0,
            held: 0,
            ways,
            moved: None,
            made: None,
            reading: None,
            exposed: false,
            only_reads: false,
        }
    }

    /// The same, to be lent to calls that only read. They have the lock also on a file system that can't be written, where no
    /// run can write its state, and so none is to begin.
    pub fn to_read(rt: R) -> RealHost<R>
        ensures faults { result.faults ≡ 0 }
        ensures bad_ends { result.bad_ends ≡ 0 }
        ensures held { result.held ≡ 0 }
        ensures lock { is_some result.lock ≡ false }
    {
        let mut host = RealHost::new(rt);
        host.only_reads = true;
        host
    }
}

impl<R> RealHost<R> {
    // Whether what is read by this path is read for a copy: another file was made, and isn't synced yet.
    fn copies(&self, path: &Path) -> bool {
        match &self.made {
            Some(made) => !made.path.is(path),
            None => false,
        }
    }

    // Lets go of what is held open: a program may put others in its place, and behind a run nothing is held.
    fn let_go(&mut self)
        ensures faults { self.old.faults ≡ self.new.faults }
        ensures bad_ends { self.old.bad_ends ≡ self.new.bad_ends }
        ensures held { self.old.held ≡ self.new.held }
        ensures lock { is_some self.old.lock ≡ is_some self.new.lock }
    {
        self.ways.forget();
        self.made = None;
        self.reading = None;
    }

    // Whether a file may be read: the first behind a making has the mode with which its copy was made. So a file that stands
    // in the log's place now can't be copied into one that others may read.
    fn fits(&self, owner: Owner) -> bool {
        match &self.made {
            Some(made) if made.owner.is_none() => match made.mode {
                Some(mode) => mode == owner.mode,
                None => true,
            },
            _ => true,
        }
    }
}

impl<R: Eprint> RealHost<R> {
    // The answer of a call, with each error counted as a fault and told, in a line to standard error.
    fn count<T>(&mut self, call: &str, path: &Path, got: io::Result<T>) -> Result<T, CallFault>
        ensures failed { OnErr result (Rose self.old.faults self.new.faults) }
        ensures grows { self.old.faults ≤ self.new.faults }
        ensures bad_ends { self.old.bad_ends ≡ self.new.bad_ends }
        ensures held { self.old.held ≡ self.new.held }
        ensures lock { is_some self.old.lock ≡ is_some self.new.lock }
        ensures value { IfOk result (λ v. got ≡ Ok v) }
    {
        match got {
            Ok(value) => Ok(value),
            Err(e) => {
                self.tell(call, path, e);
                raise(&mut self.faults);
                Err(CallFault::Failed)
            }
        }
    }

    // A line to standard error; where that takes none, the report still has the fault.
    fn tell(&self, call: &str, path: &Path, why: io::Error) {
        let path = path.as_str();
        let _ = eprintln!(self.rt; "logrotate: {call} {path}: {why}");
    }
}

impl<R> RealHost<R> {
    // Keeps the lock, whether it was got; another holds it where it wasn't.
    fn keep(&mut self, lock: Option<File>) -> bool
        ensures lock { is_some self.new.lock ≡ result }
        ensures refused { result ≡ false → Rose self.old.held self.new.held }
        ensures held { self.old.held ≤ self.new.held }
        ensures faults { self.old.faults ≡ self.new.faults }
        ensures bad_ends { self.old.bad_ends ≡ self.new.bad_ends }
    {
        let got = lock.is_some();
        self.lock = lock;
        if !got {
            raise(&mut self.held);
        }
        got
    }
}

#[tactic(auto, using(lr_host::proofs::Entered::untold))]
impl<R: Files<File = File> + Processes + AllocGlobal + Eprint + Clock + Drop> Host for RealHost<R> {
    ghost use Rattle.std.specs.Prelude.{None, is_some};

    ghost told = { λ _. None };

    ghost counts = { λ h. record { faults = h.faults; bad_ends = h.bad_ends; held = h.held; locked = is_some h.lock } };

    /// The lock is that of the file beside the state file, with `.lock` behind its name; the kernel gives it back when
    /// the process ends. A lock that this host has already is taken.
    fn begin(&mut self, state: &Path, _now: &Moment, _rules: &Rules) -> Result<bool, CallFault> {
        if self.lock.is_some() {
            raise(&mut self.held);
            return Ok(false);
        }
        let got = take_lock(&self.rt, &mut self.ways, state, self.only_reads);
        match self.count("lock", state, got) {
            Ok(lock) => Ok(self.keep(lock)),
            Err(fault) => Err(fault),
        }
    }

    fn end(&mut self) {
        self.let_go();
        self.lock = None;
    }

    fn look(&mut self, path: &Path, follow: bool) -> Result<Option<Seen>, CallFault> {
        let got = look_at(&self.rt, &mut self.ways, path, follow);
        if follow {
            self.exposed = saw_exposed(&got);
        }
        self.count("look", path, got)
    }

    fn list(&mut self, alloc: Global, dir: &Path, names: &mut Vec<Text>) -> Result<(), ListFault> {
        match names_at(&self.rt, &mut self.ways, alloc, dir, names) {
            Ok(()) => Ok(()),
            Err(e) if e.kind() == ErrorKind::OutOfMemory => Err(ListFault::Memory),
            Err(e) => {
                self.tell("list", dir, e);
                raise(&mut self.faults);
                Err(ListFault::Failed)
            }
        }
    }

    fn read(
        &mut self,
        path: &Path,
        follow: bool,
        from: u64,
        into: &mut [u8],
    ) -> Result<usize, CallFault> {
        if follow {
            let caller = self.ways.caller();
            let got = read_followed(&self.rt, caller, path.as_str(), self.exposed, from, into);
            return self.count("read", path, got);
        }
        let sole = self.copies(path);
        let got = read_held(
            &self.rt,
            &mut self.ways,
            &mut self.reading,
            path,
            sole,
            from,
            into,
        );
        match self.count("read", path, got) {
            Ok((count, owner)) => {
                if !self.fits(owner) {
                    self.tell("read", path, io::Error::other("not of its copy's mode"));
                    raise(&mut self.faults);
                    return Err(CallFault::Failed);
                }
                let given = give_made(&mut self.made, owner);
                self.count("give", path, given)?;
                Ok(count)
            }
            Err(fault) => Err(fault),
        }
    }

    fn rename(&mut self, from: &Path, to: &Path) -> Result<(), CallFault> {
        let got = rename_at(&self.rt, &mut self.ways, from, to);
        match self.count("rename", from, got) {
            Ok(moved) => {
                self.moved = Some(moved);
                Ok(())
            }
            Err(fault) => Err(fault),
        }
    }

    /// The file belongs to whom the file belonged that had this path before the last rename, if that is so.
    fn make_new(&mut self, path: &Path, mode: Option<u32>) -> Result<bool, CallFault> {
        let got = make_new_at(&self.rt, &mut self.ways, &self.moved, path, mode);
        match self.count("make", path, got) {
            Ok(Some(made)) => {
                self.made = Some(made);
                Ok(true)
            }
            Ok(None) => Ok(false),
            Err(fault) => Err(fault),
        }
    }

    fn append(&mut self, path: &Path, piece: &[u8]) -> Result<usize, CallFault> {
        let got = append_made(&self.rt, &mut self.ways, &mut self.made, path, piece);
        self.count("append", path, got)
    }

    fn truncate(&mut self, path: &Path) -> Result<(), CallFault> {
        let got = truncate_held(&self.rt, &mut self.ways, &self.reading, path);
        self.count("truncate", path, got)
    }

    fn unlink(&mut self, path: &Path) -> Result<(), CallFault> {
        let got = unlink_at(&self.rt, &mut self.ways, path);
        self.count("unlink", path, got)
    }

    /// A file that was made, and behind whose making another was read, is a copy of that: it gets its owner.
    fn sync_file(&mut self, path: &Path) -> Result<(), CallFault> {
        let got = sync_made(&self.rt, &mut self.ways, &self.made, path);
        self.made = None;
        self.count("sync", path, got)
    }

    fn sync_dir(&mut self, path: &Path) -> Result<(), CallFault> {
        let got = sync_dir_at(&self.rt, &mut self.ways, path);
        self.count("sync", path, got)
    }

    fn make_dir(&mut self, path: &Path, mode: Option<u32>) -> Result<bool, CallFault> {
        let got = make_dir_at(&self.rt, &mut self.ways, &self.lock, path, mode);
        self.count("make directory", path, got)
    }

    fn run(
        &mut self,
        alloc: Global,
        program: &Path,
        args: &[Text],
        input: Option<&Path>,
    ) -> Result<Ended, RunFault> {
        let given = match input_of(&self.rt, &mut self.ways, input) {
            Ok(given) => given,
            Err(e) => {
                self.tell("give", input.unwrap_or(program), e);
                raise(&mut self.faults);
                return Err(RunFault::Failed);
            }
        };
        self.let_go();
        match run_program(&self.rt, alloc, program, args, given) {
            Ok(Ended::Exit(0)) => Ok(Ended::Exit(0)),
            Ok(ended) => {
                raise(&mut self.bad_ends);
                Ok(ended)
            }
            Err(e) if e.kind() == ErrorKind::OutOfMemory => Err(RunFault::Memory),
            Err(e) => {
                self.tell("run", program, e);
                raise(&mut self.faults);
                Err(RunFault::Failed)
            }
        }
    }
}
