// What the program says of itself.

/// How the program is called.
pub const USAGE: &str = "usage: lraudit [-s FILE] CONFIGURATION..
       lraudit --help | --version
  -s FILE  the state file, in place of /var/lib/logrotate/status; it isn't read, but no log
           may have one of its names
Tells of each file beside the logs what it is: log, member, leftover, part or stranger;
then which numbers are missing, and which files the next run by force removes.
It changes nothing and takes no lock. TZ gives the time zone.
Status: 0, or 1 after a fault, 2 for other words, 4 for want of memory. See lraudit(8).
";
