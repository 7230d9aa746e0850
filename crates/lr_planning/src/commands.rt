// The scripts of a plan, all of which are made before the first of them is run.
ghost use Rattle.std.specs.Prelude.{◌≡◌, ◌∷◌, [], not, true, IfOk};
ghost use Rattle.lr_scripts.specs.Commands.{script_command, where_so};

use lr_rules::{Memory, Path, Rule};
use lr_scripts::{Command, script_on, script_on_both};
use std::alloc::Global;

/// The prerotate and the postrotate of a log that goes to this path, where its definition doesn't share them.
pub fn own_scripts(
    alloc: Global,
    rule: &Rule,
    log: &Path,
    target: &Path,
) -> Result<(Option<Command>, Option<Command>), Memory>
    ensures pre { IfOk result (λ two. two.0 ≡ where_so (not rule.now.shared) (script_command rule.now.scripts.pre (log.now ∷ []))) }
    ensures post { IfOk result (λ two. two.1 ≡ where_so (not rule.now.shared)
        (script_command rule.now.scripts.post (log.now ∷ target.now ∷ []))) }
{
    let own = !rule.shared;
    let pre = script_on(alloc, own, &rule.scripts.pre, log.bytes())?;
    let post = script_on_both(alloc, own, &rule.scripts.post, log.bytes(), target.bytes())?;
    Ok((pre, post))
}

/// The prerotate and the postrotate of all logs of a definition with these words, where it shares them.
pub fn shared_scripts(
    alloc: Global,
    rule: &Rule,
    words: &[u8],
) -> Result<(Option<Command>, Option<Command>), Memory>
    ensures pre { IfOk result (λ two. two.0 ≡ where_so rule.now.shared (script_command rule.now.scripts.pre (words.now ∷ []))) }
    ensures post { IfOk result (λ two. two.1 ≡ where_so rule.now.shared (script_command rule.now.scripts.post (words.now ∷ []))) }
{
    let pre = script_on(alloc, rule.shared, &rule.scripts.pre, words)?;
    let post = script_on(alloc, rule.shared, &rule.scripts.post, words)?;
    Ok((pre, post))
}

/// The firstaction and the lastaction of a definition with these words.
pub fn outer_scripts(
    alloc: Global,
    rule: &Rule,
    words: &[u8],
) -> Result<(Option<Command>, Option<Command>), Memory>
    ensures first { IfOk result (λ two. two.0 ≡ script_command rule.now.scripts.first (words.now ∷ [])) }
    ensures last { IfOk result (λ two. two.1 ≡ script_command rule.now.scripts.last (words.now ∷ [])) }
{
    let first = script_on(alloc, true, &rule.scripts.first, words)?;
    let last = script_on(alloc, true, &rule.scripts.last, words)?;
    Ok((first, last))
}
