// What a program says of itself.
ghost use Rattle.std.specs.Prelude.{◌≡◌, ◌↔◌, ◌⊎◌, ◌∷◌, [], true, codes};
ghost use Rattle.lr_report.specs.Outcome.{status_of};

use crate::given::is_alone;
use lr_report::{Outcome, status};
use lr_rules::Text;

// The commit that the programs are built from, which a release sets; empty where it isn't known.
const COMMIT: &str = "";

// The line by which the toolchain names itself (`rt version`).
const TOOLCHAIN: &str = "rattle-kit-13f logic dac8208d650f15bf";

// Writes the program's name, its version and what it was built from and with.
fn put_version(rt: &HostRuntime, name: &str) {
    if COMMIT.is_empty() {
        let _ = println!(rt; "{name} 0.9");
    } else {
        let _ = println!(rt; "{name} 0.9 ({COMMIT})");
    }
    let _ = println!(rt; "proved with {TOOLCHAIN}");
}

/// Whether the one word asks the program for its usage or for its version, which is put then.
pub fn tells_itself(rt: &HostRuntime, words: &[Text], name: &str, usage: &str) -> bool
    ensures { result ≡ true ↔ ((words.now ≡ codes "--help" ∷ []) ⊎ (words.now ≡ codes "--version" ∷ [])) }
{
    if is_alone(words, b"--help".as_slice()) {
        let _ = print!(rt; "{usage}");
        return true;
    }
    if is_alone(words, b"--version".as_slice()) {
        put_version(rt, name);
        return true;
    }
    false
}

/// The status of a call. Behind bad words the usage is told, on standard error.
pub fn ended(rt: &HostRuntime, outcome: &Outcome, usage: &str) -> u8
    ensures { result ≡ status_of outcome.now }
{
    if let Outcome::BadWords = outcome {
        let _ = eprint!(rt; "{usage}");
    }
    status(outcome)
}
