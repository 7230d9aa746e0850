// What a host in memory is told beforehand: what writers do, and which calls fail.
ghost use Rattle.std.specs.Prelude.{◌≡◌};
ghost use Rattle.lr_memhost.specs.How.{downs, idles, without_stops};

use lr_host::Entry;

/// An act of a writer. It comes just before the call with the number `before`, or before the first call after it was
/// told; calls are numbered from 0.
#[derive(Drop)]
pub struct Act {
    pub before: u64,
    pub what: Entry,
}

/// How a call fails.
#[derive(Clone, Copy, Debug, PartialEq, Eq)]
pub enum How {
    /// It does nothing.
    NoEffect,
    /// It does what it was asked for, where it changes something.
    WithEffect,
    /// An append leaves its first so many bytes, or all where it has fewer; any other call does nothing.
    Part(usize),
    /// It does nothing, nor does any later call but the end of a run, until the host is revived.
    Stop,
}

/// Whether the host is down behind a call that fails so.
pub fn is_stop(how: Option<How>) -> bool
    ensures { result ≡ downs how }
{
    match how {
        Some(How::Stop) => true,
        _ => false,
    }
}

/// Whether a call that is no append does nothing.
pub fn is_idle(how: Option<How>) -> bool
    ensures { result ≡ idles how }
{
    match how {
        None => false,
        Some(How::WithEffect) => false,
        _ => true,
    }
}

/// The call with the number `at` fails. Where several list the same call, the first counts.
#[derive(Clone, Copy, Debug, PartialEq, Eq)]
pub struct Failing {
    pub at: u64,
    pub how: How,
}

/// Takes away those that stop the machine.
pub fn drop_stops(failing: &mut Vec<Failing>)
    ensures { failing.new.items ≡ without_stops failing.old.items }
{
    failing.retain(|f| !is_stop(Some(f.how)));
}
