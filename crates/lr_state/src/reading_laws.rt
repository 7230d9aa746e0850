// Laws of the reading.
ghost use Rattle.std.specs.Prelude.{◌≡◌, ℕ, List};
ghost use Rattle.lr_rules.specs.declared.path.Path.{Path};
ghost use Rattle.lr_host.specs.declared.entry.Entry.{Entry};
ghost use Rattle.lr_host.specs.Quiet.{AreQuiet};
ghost use Rattle.lr_state.specs.Known.{Known, IsKnown};
ghost use Rattle.lr_state.specs.Sights.{StateSights, ShowsState};

/// Reading the state changes nothing.
pub fn states_are_read_quietly()
    ensures { (state : Path) (size : ℕ) (sights : StateSights) (ts : List Entry) → ShowsState state size sights ts → AreQuiet ts }
{}

/// Entries show one answer and no other.
pub fn states_show_one_answer()
    ensures { (state : Path) (size : ℕ) (sights others : StateSights) (ts : List Entry) (known told : Known)
        → ShowsState state size sights ts → ShowsState state size others ts → IsKnown state sights known → IsKnown state others told
        → known ≡ told }
{}
