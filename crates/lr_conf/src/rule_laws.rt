// The law of the rules that lines make.
ghost use Rattle.std.specs.Prelude.{◌≡◌, List, [], All, true, false};
ghost use Rattle.std.specs.List.{list_all};
ghost use Rattle.lr_rules.specs.Limits.{meets_limits};
ghost use Rattle.lr_conf.specs.Meaning.{ConfLine, meaning};
ghost use Rattle.lr_conf.specs.Plain.{IsPlainRule};

/// Whichever lines come, each rule of a configuration meets the limits of its values. It also has a word at least, and its
/// words, names or patterns, and its count are within their limits.
pub fn rules_of_lines()
    ensures limits { (lines : List ConfLine) → list_all meets_limits (meaning false [] lines).rules ≡ true }
    ensures plain { (lines : List ConfLine) → All IsPlainRule (meaning false [] lines).rules }
{}
