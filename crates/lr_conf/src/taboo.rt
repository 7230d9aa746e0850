// The taboo list, changed in place: a copy for each line that adds to it would take time with the square of the lines.
ghost use Rattle.std.specs.Prelude.{◌≡◌, OnOk, OnErr};
ghost use Rattle.lr_match.specs.Taboos.{list_after};

use lr_rules::{Listed, Memory, Text};
use std::alloc::Global;
use std::mem;

/// The items replace those of the list, or with `adding` stand behind them.
pub(crate) fn change_list(
    alloc: Global,
    list: &mut Listed<Text>,
    adding: bool,
    items: Listed<Text>,
) -> Result<(), Memory>
    ensures ok { OnOk result (list.new ≡ list_after adding list.old items) }
    ensures err { OnErr result (list.new ≡ list.old) }
{
    if !adding {
        *list = items;
        return Ok(());
    }
    let mut all = mem::replace(list, Listed::new(alloc)).into_vec();
    let added = all.append(&mut items.into_vec());
    *list = Listed::from_vec(all);
    match added {
        Ok(()) => Ok(()),
        Err(_) => Err(Memory),
    }
}
