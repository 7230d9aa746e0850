// What `create` and `createolddir` say.
ghost use Rattle.std.specs.Prelude.{◌≡◌};
ghost use Rattle.lr_forms.specs.Says.{texts};
ghost use Rattle.lr_forms.specs.Values.{mode_of, setting_make, made, make_says};

use crate::said::LineSaid;
use crate::set::Set;
use lr_lex::Word;
use lr_rules::{ConfKind, Make};
use lr_words::{first_mode, names_owner};

fn mode_of(values: &[Word]) -> Result<Option<u32>, ConfKind>
    ensures { result ≡ mode_of (texts values.now) }
{
    match values {
        [] => Ok(None),
        [word, ..] => first_mode(word.text.bytes()),
    }
}

fn making(olddir: bool, make: Make) -> Set
    ensures { result ≡ setting_make olddir make }
{
    if olddir {
        Set::CreateOlddir(make)
    } else {
        Set::Create(make)
    }
}

fn made(olddir: bool, words: usize, mode: Result<Option<u32>, ConfKind>) -> LineSaid
    ensures { result ≡ made olddir words mode }
{
    match mode {
        Err(kind) => LineSaid::Bad(kind),
        Ok(mode) => {
            let set = making(olddir, Make::Yes(mode));
            if names_owner(words, mode) {
                LineSaid::OwnerPassed(set)
            } else {
                LineSaid::Sets(set)
            }
        }
    }
}

/// What `createolddir`, or else `create`, says.
pub(crate) fn make_says(olddir: bool, values: &[Word]) -> LineSaid
    ensures { result ≡ make_says olddir (texts values.now) }
{
    made(olddir, values.len(), mode_of(values))
}
