// What a call asks for besides its configuration.
ghost use Rattle.std.specs.Prelude.{◌≡◌, true};
ghost use Rattle.lr_rules.specs.StatePath.{can_be_state};

use crate::Path;

/// What a call asks for besides its configuration. The path of the state file has at most 4,000 bytes and a last part.
#[derive(Drop)]
pub struct Settings {
    /// The state file.
    pub state: Path,
    /// The program that mails files.
    pub mailer: Path,
    /// Whether each log is rotated that isn't empty or young where its rule spares such.
    pub force: bool,
    /// Whether the run only tells what it would do.
    pub debug: bool,
    /// Whether the run tells what it decided of each log.
    pub verbose: bool,
    pub ghost state_fits: { can_be_state state ≡ true },
}
