// Laws of the fields.
ghost use Rattle.std.specs.Prelude.{◌≡◌, ◌++◌, ◌∷◌, List, []};
ghost use Rattle.std.specs.List.{filter_map};
ghost use Rattle.lr_rules.specs.declared.rule.Count.{Count};
ghost use Rattle.lr_rules.specs.declared.rule.Criterion.{Criterion};
ghost use Rattle.lr_forms.specs.declared.set.Set.{Set};
ghost use Rattle.lr_forms.specs.declared.set.Set.TheVariants as set;
ghost use Rattle.lr_conf.specs.Fields.{fields_of, count_set, criterion_set};
ghost use Rattle.lr_conf.specs.Setting.{with_set};

/// One more setting makes of the fields those of all settings, each with the value of the last that sets it.
pub fn one_more_setting()
    ensures { (earlier : List Set) (s : Set) → fields_of (earlier ++ s ∷ []) ≡ with_set (fields_of earlier) s }
{}

/// The last line that sets the count gives it.
pub fn last_count()
    ensures { (earlier later : List Set) (n : Count) → filter_map count_set later ≡ []
        → (fields_of (earlier ++ set.Count n ∷ later)).rule.count ≡ n }
{}

/// The last line that sets the criterion gives it.
pub fn last_criterion()
    ensures { (earlier later : List Set) (c : Criterion) → filter_map criterion_set later ≡ []
        → (fields_of (earlier ++ set.Criterion c ∷ later)).rule.criterion ≡ c }
{}
