// The civil seconds from one moment to another.
ghost use Rattle.std.specs.Prelude.{◌≡◌};
ghost use Rattle.lr_rules.specs.Between.{seconds_between};

use crate::Civil;

impl Civil {
    /// How many civil seconds the moment is behind an earlier one; below 0 where that one is the later.
    pub fn seconds_since(&self, earlier: &Civil) -> i64
        ensures { result ≡ seconds_between earlier.now self.now }
    {
        self.seconds() - earlier.seconds()
    }
}
