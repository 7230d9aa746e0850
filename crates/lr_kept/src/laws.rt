// That the choice is determined.
ghost use Rattle.std.specs.Prelude.{◌≡◌, Bool, List};
ghost use Rattle.std.specs.Borrow.{Bor};
ghost use Rattle.lr_rules.specs.declared.path.Path.{Path};
ghost use Rattle.lr_family.specs.declared.family.Family.{Family};
ghost use Rattle.lr_kept.specs.declared.choice.Choice.{Choice};
ghost use Rattle.lr_kept.specs.Chosen.{AreChosen};

/// For the same logs, marks of wildcards and reserved paths there is one choice alone.
pub fn choice_is_fixed()
    ensures { (logs : List (Bor Family)) (wild : List Bool) (reserved : List Path) (choices others : List Choice)
        → AreChosen logs wild reserved choices → AreChosen logs wild reserved others → choices ≡ others }
{}
