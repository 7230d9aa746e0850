// A run that looks at all its logs first, and rotates them then; and what is so of each log that it saw.
ghost use Rattle.std.specs.Prelude.{◌≡◌, [], ◌∷◌, ◌++◌, Option};
ghost use Rattle.lr_rules.specs.declared.clock.Clock.{Clock};
ghost use Rattle.lr_rules.specs.declared.path.Path.{Path};
ghost use Rattle.lr_rules.specs.declared.rule.Way.TheVariants.{RenameCopy};
ghost use Rattle.lr_rules.specs.declared.rules.Rules.{Rules};
ghost use Rattle.lr_host.specs.declared.journal.Journal.{Journal};
ghost use Rattle.lr_host.specs.Told.{Left};
ghost use Rattle.lr_laws.specs.Forward.{IsForwardFor};
ghost use Rattle.lr_laws.specs.Stays.{KeepsSafeBy, KeepsSafeWhere};
ghost use Rattle.lr_laws_rotations.specs.Runs.{AllTurnsBy, IsWholeRunBy};
ghost use Rattle.lr_laws_rotations.specs.DatedExample.{rule, looks, turn};

/// Over calls that leave the entries of such a run, as far as it came, each set stays safe of which no member's moment has
/// gone ahead of the clock's: the set of a log that was rotated, or of any other, numbered or dated, whatever other logs'
/// steps and the state's entries stand between, with writers' entries in a journal where the set is steady. Of a numbered set
/// nothing is asked. So does each set whose log is set aside, and copied from there. It is not where the rule of its log asks
/// for a copy of the log where it stands.
pub fn all_logs_stay_safe()
    ensures renamed { (clock : Clock) (before after : Option Journal) → Left (IsWholeRunBy clock) before after
        → KeepsSafeWhere (IsForwardFor clock) before after }
    ensures aside { (clock : Clock) (before after : Option Journal) → Left (IsWholeRunBy clock) before after
        → KeepsSafeBy RenameCopy (IsForwardFor clock) before after }

    // A worked example: a run that looked at a log with dates, of which no member stands, and renamed it to the clock's stamp,
    // whatever the clock.
    ensures dated_log_turns { (rules : Rules) × (rules.sets ≡ rule ∷ [])
        × ((state : Path) (clock : Clock) → AllTurnsBy state clock rules (looks ++ turn clock ∷ [])) }
{}
