// A run over two logs, worked through: as far as it came, whole, and where the one log's rotation failed.
ghost use Rattle.std.specs.Prelude.{◌≡◌, List, [], ◌∷◌, ◌++◌};
ghost use Rattle.lr_rules.specs.declared.clock.Clock.{Clock};
ghost use Rattle.lr_host.specs.declared.entry.Entry.{Entry};
ghost use Rattle.lr_host.specs.declared.entry.Entry.TheVariants.{Ends};
ghost use Rattle.lr_laws_rotations.specs.Runs.{AllTurnedBy, IsWholeRunBy};
ghost use Rattle.lr_laws_rotations.specs.Logs.{state, rules, a_target, b_target, looks};
ghost use Rattle.lr_laws_rotations.specs.TwoLogs.{steps, saves, two_logs_run};

/// A run that looks at two logs and at both families, and then makes the steps of both rotations up to any one of them,
/// has the shape of a run over several logs.
pub fn two_logs_turn()
    ensures shape { (clock : Clock) (made rest : List Entry) → steps ≡ made ++ rest → IsWholeRunBy clock (two_logs_run clock made) }

    // With all the steps made, both logs were rotated whole, each with the other's steps beside its own; so too where the state
    // was written behind them.
    ensures alone { (clock : Clock) → (t : AllTurnedBy state clock rules (looks ++ (steps ++ Ends ∷ [])))
        × (t.turns.targets ≡ a_target ∷ b_target ∷ []) }
    ensures saved { (clock : Clock) → (t : AllTurnedBy state clock rules (looks ++ (steps ++ (saves ++ Ends ∷ []))))
        × (t.turns.targets ≡ a_target ∷ b_target ∷ []) }
{}
