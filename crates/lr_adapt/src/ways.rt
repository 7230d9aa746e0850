// The directories that paths stand in, found so that no other user can lead a call away.
//
// The system follows the links in a path, also one that stands there since a moment ago. So a path's directory is walked to,
// part by part. While each directory on the way is root's or the caller's alone to write, nobody else can change what the
// text of the path names, and that text serves. From the first one on that others may change, the directory is held open, and
// what stands in it is `/proc/self/fd/N/NAME`: it begins in the directory that is held, whatever has its name by then. A link
// is followed only out of a directory that is root's or the caller's alone.
use crate::opened::{Opened, is_exposed, is_same, named, open_dir};
use lr_rules::Path;
use std::fs::{File, Metadata};
use std::io::Error;
use std::mem::swap;
use std::os::fd::AsRawFd;
use std::os::unix::fs::MetadataExt;
use std::rt::Files;
use std::{fs, io};

// The system's number for "Not a directory".
const NO_DIRECTORY: i32 = 20;

// The system's number for "Too many levels of symbolic links".
const TOO_MANY_LINKS: i32 = 40;

// How many links a walk follows, as many as the system does.
const LINKS: u32 = 40;

// How many parts a walk goes through: more than the texts of a path and of that many links have in use.
const PARTS: u32 = 100_000;

// Where a walk stands.
#[derive(Drop)]
struct Stand {
    // The text that leads to the directory, without a slash behind it.
    at: String,
    // The directory, where others may change one above it or this one.
    handle: Option<File>,
    // Whether others may change this one.
    exposed: bool,
}

// A directory by its path, and the way to it.
#[derive(Drop)]
struct Way {
    dir: String,
    stand: Stand,
    // Whether the directory's own path leads to it.
    plain: bool,
}

/// The text by which the system finds what a path itself names.
#[derive(Drop)]
pub(crate) struct At {
    // None where it is the path's own.
    made: Option<String>,
}

impl At {
    /// The text, of the path by which this was found.
    pub(crate) fn text<'a>(&'a self, path: &'a Path) -> &'a str {
        match &self.made {
            Some(made) => made.as_str(),
            None => path.as_str(),
        }
    }
}

/// The directories that were walked to last, the last one first: in a run they are those of the logs, of the old logs and of
/// the state.
#[derive(Drop)]
pub(crate) struct Ways {
    caller: u32,
    first: Option<Way>,
    second: Option<Way>,
    third: Option<Way>,
}

// The user that the program runs as. Where /proc doesn't tell it, root alone counts.
fn caller_of<R: Files>(rt: &R) -> u32 {
    match fs::metadata(rt, "/proc/self") {
        Ok(seen) => seen.uid(),
        Err(_) => 0,
    }
}

/// A path's directory, empty for the root, and the name in it.
pub(crate) fn parted(path: &str) -> (&str, &str) {
    match path.rsplit_once('/') {
        Some(parts) => parts,
        None => ("", path),
    }
}

// The first part of a text, and what stands behind it.
fn first_part(rest: &str) -> Option<(&str, &str)> {
    let rest = rest.trim_start_matches('/');
    if rest.is_empty() {
        return None;
    }
    match rest.split_once('/') {
        Some(parts) => Some(parts),
        None => Some((rest, "")),
    }
}

// Holds a directory. Without /proc nothing in it can be reached, and what others may lead away isn't asked by its text.
fn hold<R: Files<File = File> + AllocGlobal>(
    rt: &R,
    caller: u32,
    opened: Opened,
) -> io::Result<Stand> {
    let number = opened.file.as_raw_fd();
    let at = format!(in rt.alloc(); "/proc/self/fd/{number}")?;
    match fs::metadata(rt, at.as_str()) {
        Ok(seen) if is_same(&seen, &opened.seen) => {
            let exposed = is_exposed(&seen, caller);
            let Opened { file, .. } = opened;
            Ok(Stand {
                at,
                handle: Some(file),
                exposed,
            })
        }
        _ => Err(Error::other("others may change a directory above it, and there is no /proc")),
    }
}

// The root, where each walk begins.
fn root<R: Files<File = File> + AllocGlobal>(rt: &R, caller: u32) -> io::Result<Stand> {
    let seen = fs::metadata(rt, "/")?;
    if is_exposed(&seen, caller) {
        hold(rt, caller, open_dir(rt, "/", true)?)
    } else {
        Ok(Stand {
            at: String::new(rt.alloc()),
            handle: None,
            exposed: false,
        })
    }
}

// The directory above. By a text that others can't change it is the text before the last slash; by a handle there's none.
fn above<R: AllocGlobal>(rt: &R, stand: &Stand) -> io::Result<Stand> {
    if stand.handle.is_some() {
        return Err(Error::other("a link leads back out of a directory that others may change"));
    }
    let (at, _) = parted(stand.at.as_str());
    Ok(Stand {
        at: String::from_str(rt.alloc(), at)?,
        handle: None,
        exposed: false,
    })
}

// The directory that this text leads to, held.
fn held_dir<R: Files<File = File> + AllocGlobal>(
    rt: &R,
    caller: u32,
    next: &str,
) -> io::Result<Stand> {
    let opened = open_dir(rt, next, false)?;
    hold(rt, caller, opened)
}

// Into a directory, of which this was seen behind the text.
fn enter<R: Files<File = File> + AllocGlobal>(
    rt: &R,
    caller: u32,
    stand: &Stand,
    next: String,
    seen: &Metadata,
) -> io::Result<Stand> {
    if !seen.is_dir() {
        return Err(Error::from_raw_os_error(NO_DIRECTORY));
    }
    if stand.handle.is_some() || is_exposed(seen, caller) {
        return held_dir(rt, caller, next.as_str());
    }
    Ok(Stand {
        at: next,
        handle: None,
        exposed: false,
    })
}

// The text of a link in the directory.
fn link_in<R: Files + AllocGlobal>(rt: &R, stand: &Stand, path: &str) -> io::Result<String> {
    if stand.exposed {
        return Err(Error::other("a link that others may change is in the way"));
    }
    let alloc = rt.alloc();
    let target = fs::read_link(&(rt, alloc), path)?;
    Ok(String::from_str(alloc, target.as_str())?)
}

// A walk under way: where it stands, the parts that are left, and how many links it followed.
#[derive(Drop)]
struct Walk {
    stand: Stand,
    rest: String,
    links: u32,
}

// A walk that begins.
fn begun<R: Files<File = File> + AllocGlobal>(rt: &R, caller: u32, dir: &str) -> io::Result<Walk> {
    let rest = String::from_str(rt.alloc(), dir)?;
    Ok(Walk {
        stand: root(rt, caller)?,
        rest,
        links: 0,
    })
}

fn go_up<R: AllocGlobal>(rt: &R, walk: &mut Walk) -> io::Result<()> {
    let stand = above(rt, &walk.stand)?;
    walk.stand = stand;
    Ok(())
}

// The parts of a link's text come next; from the root on, where it begins there.
fn take_target<R: Files<File = File> + AllocGlobal>(
    rt: &R,
    caller: u32,
    walk: &mut Walk,
    target: &str,
) -> io::Result<()> {
    let behind = walk.rest.as_str();
    let rest = format!(in rt.alloc(); "{target}/{behind}")?;
    walk.rest = rest;
    if target.starts_with('/') {
        let stand = root(rt, caller)?;
        walk.stand = stand;
    }
    Ok(())
}

fn follow<R: Files<File = File> + AllocGlobal>(
    rt: &R,
    caller: u32,
    walk: &mut Walk,
    path: &str,
) -> io::Result<()> {
    if walk.links >= LINKS {
        return Err(Error::from_raw_os_error(TOO_MANY_LINKS));
    }
    let target = link_in(rt, &walk.stand, path)?;
    walk.links = walk.links.saturating_add(1);
    take_target(rt, caller, walk, target.as_str())
}

// To what has this name in the directory.
fn go_into<R: Files<File = File> + AllocGlobal>(
    rt: &R,
    caller: u32,
    walk: &mut Walk,
    name: &str,
) -> io::Result<()> {
    let at = walk.stand.at.as_str();
    let next = format!(in rt.alloc(); "{at}/{name}")?;
    let seen = named(rt, next.as_str(), false)?;
    if seen.is_symlink() {
        return follow(rt, caller, walk, next.as_str());
    }
    let stand = enter(rt, caller, &walk.stand, next, &seen)?;
    walk.stand = stand;
    Ok(())
}

// One part on.
fn step<R: Files<File = File> + AllocGlobal>(
    rt: &R,
    caller: u32,
    walk: &mut Walk,
    name: &str,
) -> io::Result<()> {
    match name {
        "." => Ok(()),
        ".." => go_up(rt, walk),
        _ => go_into(rt, caller, walk, name),
    }
}

// The first part that is left, which the walk leaves out of the rest.
fn next_part<R: AllocGlobal>(rt: &R, walk: &mut Walk) -> io::Result<Option<String>> {
    let Some((name, behind)) = first_part(walk.rest.as_str()) else {
        return Ok(None);
    };
    let behind = String::from_str(rt.alloc(), behind)?;
    let name = String::from_str(rt.alloc(), name)?;
    walk.rest = behind;
    Ok(Some(name))
}

// Goes through the parts.
fn go_through<R: Files<File = File> + AllocGlobal>(
    rt: &R,
    caller: u32,
    walk: &mut Walk,
) -> io::Result<()> {
    for _ in 0..PARTS {
        match next_part(rt, walk)? {
            Some(name) => step(rt, caller, walk, name.as_str())?,
            None => return Ok(()),
        }
    }
    Err(Error::from_raw_os_error(TOO_MANY_LINKS))
}

// The way to a directory.
fn walked<R: Files<File = File> + AllocGlobal>(
    rt: &R,
    caller: u32,
    dir: &str,
) -> io::Result<Stand> {
    let mut walk = begun(rt, caller, dir)?;
    go_through(rt, caller, &mut walk)?;
    let Walk { stand, .. } = walk;
    Ok(stand)
}

fn way_to<R: Files<File = File> + AllocGlobal>(rt: &R, caller: u32, dir: &str) -> io::Result<Way> {
    let stand = walked(rt, caller, dir)?;
    let plain = stand.handle.is_none() && stand.at.as_str() == dir;
    Ok(Way {
        dir: String::from_str(rt.alloc(), dir)?,
        stand,
        plain,
    })
}

fn leads_to(way: &Option<Way>, dir: &str) -> bool {
    match way {
        Some(way) => way.dir.as_str() == dir,
        None => false,
    }
}

impl Ways {
    /// No directory is walked to yet.
    pub(crate) fn new<R: Files>(rt: &R) -> Ways {
        Ways {
            caller: caller_of(rt),
            first: None,
            second: None,
            third: None,
        }
    }

    /// The user that the program runs as.
    pub(crate) fn caller(&self) -> u32 {
        self.caller
    }

    /// Lets the directories go: others may stand at their paths.
    pub(crate) fn forget(&mut self) {
        self.first = None;
        self.second = None;
        self.third = None;
    }

    // Brings the way to the directory to the first place. The one that stood there before stays, so that two paths can be had at
    // once.
    fn find<R: Files<File = File> + AllocGlobal>(&mut self, rt: &R, dir: &str) -> io::Result<()> {
        if leads_to(&self.first, dir) {
            return Ok(());
        }
        if leads_to(&self.second, dir) {
            swap(&mut self.first, &mut self.second);
            return Ok(());
        }
        if leads_to(&self.third, dir) {
            swap(&mut self.first, &mut self.third);
            swap(&mut self.second, &mut self.third);
            return Ok(());
        }
        let way = way_to(rt, self.caller, dir)?;
        self.make_room();
        self.first = Some(way);
        Ok(())
    }

    // Each way moves one place on, and the last one goes.
    fn make_room(&mut self) {
        self.third = self.second.take();
        self.second = self.first.take();
    }

    // The text of a name in the directory that was found last.
    fn text<R: AllocGlobal>(&self, rt: &R, name: &str) -> io::Result<String> {
        match &self.first {
            Some(way) => {
                let at = way.stand.at.as_str();
                Ok(format!(in rt.alloc(); "{at}/{name}")?)
            }
            None => Err(Error::other("no directory was found")),
        }
    }

    // Whether the directory that was found last is found by its own path.
    fn is_plain(&self) -> bool {
        match &self.first {
            Some(way) => way.plain,
            None => false,
        }
    }

    /// Whether others may change the directory that was found last, or one above it.
    pub(crate) fn is_held(&self) -> bool {
        match &self.first {
            Some(way) => way.stand.handle.is_some(),
            None => true,
        }
    }

    /// The text by which the system finds what the path itself names. It holds until two further directories are found.
    pub(crate) fn place<R: Files<File = File> + AllocGlobal>(
        &mut self,
        rt: &R,
        path: &Path,
    ) -> io::Result<At> {
        let (dir, name) = parted(path.as_str());
        self.find(rt, dir)?;
        if self.is_plain() {
            return Ok(At { made: None });
        }
        Ok(At {
            made: Some(self.text(rt, name)?),
        })
    }

    /// The text by which the system finds this directory, with `/.` behind it. A link in the place of its last part is followed as
    /// one further up: a log's directory may be one.
    pub(crate) fn place_dir<R: Files<File = File> + AllocGlobal>(
        &mut self,
        rt: &R,
        dir: &Path,
    ) -> io::Result<String> {
        let dir = dir.as_str();
        self.find(rt, if dir == "/" { "" } else { dir })?;
        self.text(rt, ".")
    }
}
