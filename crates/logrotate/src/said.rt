// What the program says of itself.

/// How the program is called.
pub const USAGE: &str = "usage: logrotate [-dfv] [-s FILE] [-m COMMAND] CONFIGURATION..
       logrotate --help | --version
  -d, --debug         only tell what would be done
  -f, --force         rotate each log now
  -v, --verbose       tell what was decided of each log
  -s, --state FILE    the state file, in place of /var/lib/logrotate/status
  -m, --mail COMMAND  the program that mails files, in place of /usr/bin/mail
A CONFIGURATION is a file, or a directory whose files are read. TZ gives the time zone.
Status: 0, or 1 after a fault, 2 for other words, 3 where another run holds the lock,
4 for want of memory. See logrotate(8).
";
