// What the program says of itself.

/// How the program is called.
pub const USAGE: &str = "usage: lrcat [-s FILE] CONFIGURATION LOG
       lrcat --help | --version
  -s FILE  the state file whose lock is held, in place of /var/lib/logrotate/status
Writes LOG, with all its rotated files before it, to standard output. A pager behind it
holds the lock for as long as it waits: write to a file first.
Status: 0, or 1 after a fault, 2 for other words, 3 where another run holds the lock,
4 for want of memory, 5 where no definition gives LOG. See lrcat(1).
";
