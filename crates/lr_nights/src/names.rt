// Whether a path is a log's own or a member's.
ghost use Rattle.std.specs.Prelude.{◌≡◌, List, All, None};
ghost use Rattle.lr_host.specs.Sets.{LogSet, in_set};
ghost use Rattle.lr_nights.specs.Summary.{IsSetOf, AreSetsOf, logs_of, in_one};

use lr_family::Family;
use lr_rules::Path;

/// Whether the path is the log or a member of it.
pub fn is_of(log: &Family, path: &Path) -> bool
    requires { log.now.naming.dated ≡ None }
    ensures { (s : LogSet) → IsSetOf (log.now.log, log.now.naming) s → result ≡ in_set s path.now }
{
    if log.log().is(path) {
        return true;
    }
    log.place_of(path).is_some()
}

/// Whether the path is one of the logs or a member of one.
pub fn is_of_one(logs: &[Family], path: &Path) -> bool
    requires { All (λ f. f.naming.dated ≡ None) logs.now }
    ensures { (sets : List LogSet) → AreSetsOf (logs_of logs.now) sets → result ≡ in_one sets path.now }
{
    for log in logs {
        if is_of(log, path) {
            return true;
        }
    }
    false
}
