// What holds of whatever a line says.
ghost use Rattle.std.specs.Prelude.{◌≡◌, Bool, true};
ghost use Rattle.lr_lex.specs.declared.item.Item.{Item};
ghost use Rattle.lr_forms.specs.Says.{item_says};
ghost use Rattle.lr_forms.specs.Limits.{said_meets, NamesSome};

/// What a line sets meets the limit of a rule for its field, and its names name logs. Where it names logs, it names one
/// at least.
pub fn lines_meet_limits()
    ensures limits { (inside : Bool) (item : Item) → said_meets (item_says inside item) ≡ true }
    ensures named { (inside : Bool) (item : Item) → NamesSome (item_says inside item) }
{}
