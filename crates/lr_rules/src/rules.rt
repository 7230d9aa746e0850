// The definitions of a run.
ghost use Rattle.std.specs.Prelude.{◌≡◌, true};
ghost use Rattle.std.specs.List.{list_all};
ghost use Rattle.lr_rules.specs.Limits.{meets_limits};

use crate::{Listed, Rule};

/// The definitions of a run, in the order in which they were read. Each of them meets the limits of its values.
#[derive(Drop)]
pub struct Rules {
    pub sets: Listed<Rule>,
    pub ghost limits: { list_all meets_limits sets ≡ true },
}
