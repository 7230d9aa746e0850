//! The machine as a host and as a sink: what a run is lent that is to change real files.
//!
//! The contract above it is the trait's, and the count of what failed: each call that can't be made, or fails, raises
//! the count of faults, each program that ended badly that of bad ends, each lock that another has that of held locks,
//! and the lock that was taken is given back by `end`. Begin with `RealHost::new`.
//!
//! **What is trusted.** No contract can say what a file of the machine holds, so both tell nothing: no journal, no bytes
//! taken. That the machine does what each call asks for is trusted, and is tried by `demo/host-calls` on a real directory. What
//! each does there:
//!
//! - `begin`: opens the file of the state's name with `.lock` behind it, which is made with mode 0600 where it is missing, and
//!   takes its lock (`flock`) without waiting; false where another has it. On a file system that can't be written it fails; but
//!   to a host that only reads (`RealHost::to_read`) that file is opened for reading there, and where it is missing, so that no
//!   run can begin, the state's directory in its place
//! - `end`: closes that file, which gives the lock back, as the end of the process does; the file stays
//! - `look`: `lstat`, or `stat` where links are followed; a part that is missing or no directory means that nothing is there
//! - `list`: the names of the directory, but for `.` and `..`, those that aren't UTF-8, and those with a newline
//! - `read`: reads once from the place on; the file is held open while `lstat` says that the path names it, and another that
//!   got its path isn't read on from its middle. Behind a making, up to the sync of what was made, it is read for a copy: then
//!   it has one name, and the first such file has the mode that the copy was made with; the copy is given to whom that belongs
//!   before its first byte is answered. The file is opened for writing too; one that this user may only read is opened so, and
//!   so is one on a file system that can't be written, but not for a copy. Where links are followed a file that others may write
//!   isn't read, unless the last such look saw what others may write
//! - `rename`: `rename`; where the file went is noted, and whose it is where it leaves its directory
//! - `make_new`: opens with `O_EXCL`, so a link that leads nowhere is a name too; then `fchown` to whom the file belongs that
//!   the last rename took from this path, and `fchmod`, since the process's mask cuts the mode; where one is refused the name
//!   is taken away again. It has the bits behind `u+s` and `g+s` only once it is given to an owner, and where others may change
//!   the directory, only if the file has them that the last rename took. The file is held open
//! - `append`: writes once behind the end: of the file that was made last, where it was made by this path and the path names it
//!   still; else of one that the path names, which has one name; one that is missing isn't made. A piece of zeros makes the file
//!   longer (`ftruncate`) and isn't written, where the file system lets it
//! - `truncate`: cuts to nothing (`ftruncate`) what was read last, where it was read by this path and the path names it still;
//!   else a file that the path names; it has one name
//! - `unlink`: `unlink`
//! - `sync_file`, `sync_dir`: `fsync` of the file that was made last, where it was made by this path and the path names it
//!   still, else of what the path names, or of the directory; a file that was made, and behind whose making another was read,
//!   is given to whom that belongs before, once more
//! - `make_dir`: `mkdir`, then `fchmod`, where the process's mask cut the mode, on a directory that is younger than its
//!   parent's last change before; with a mode it waits, two seconds at most, until the clock of the file systems has moved on
//!   since that change: by 20 milliseconds, and as a change of the lock's file tells it, which is given the mode that it has
//! - `run`: starts the program, with the environment, working directory and output of this one, and waits for its end; without
//!   a file its input is empty (`/dev/null`), and a file that it gets has one name
//!
//! **What others may change.** Each file that is opened, but for what `read` follows, is a regular one that its own path names: its
//! device and number are those that `lstat` tells behind the opening; else the call fails. The directories above it, but for
//! what is followed, are walked to part by part: the text of a path serves while each of them is root's or the caller's alone to
//! write, by owner and mode. From the first one on that isn't, the directory is held open, and what stands in it is reached by
//! `/proc/self/fd/N/NAME`; without /proc such a call fails. A link on the way is followed only out of a directory that is root's
//! or the caller's alone. A walk is made once for a directory, as long as no program runs.
//!
//! Not kept off: another regular file that the directory's owner gives the path of a log, with the log's mode, before a run
//! reads it. A device may be opened, and closed, where a link to it comes between the look and the opening.
//!
//! Each call that fails is told in a line to standard error, with the system's reason.
//!
//! The mode that a look tells is the permission bits, with those behind `u+s`, `g+s` and `+t`.
#![tactic(auto)]

mod calls;
mod dirs;
mod held;
mod made;
mod opened;
mod real;
mod sink;
mod streams;
mod ways;

pub use real::RealHost;
pub use sink::RealSink;
