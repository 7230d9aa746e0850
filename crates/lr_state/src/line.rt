// One line of a state text.
ghost use Rattle.lr_state.specs.Answer.{IsLineAnswer};

use crate::moment::moment;
use crate::name::name;
use crate::state::State;
use lr_rules::StateKind;
use std::alloc::{AllocError, Global};

/// Why a line adds nothing.
#[derive(Clone, Copy)]
pub(crate) enum LineStop {
    Fault(StateKind),
    Memory,
}

impl From<AllocError> for LineStop {
    ghost use Rattle.std.specs.Prelude.{◌≡◌};
    ghost use Rattle.lr_state.specs.declared.line.LineStop.TheVariants.{Memory};

    ghost from_gives = { λ _ stop. stop ≡ Memory };

    fn from(_fault: AllocError) -> LineStop {
        LineStop::Memory
    }
}

/// Adds the entry of a line.
pub(crate) fn add_line(alloc: Global, state: &mut State, line: &[u8]) -> Result<(), LineStop>
    ensures { IsLineAnswer state.old line.now result state.new }
{
    if line.is_empty() {
        return Ok(());
    }
    let Some((name, rest)) = name(alloc, line)? else {
        return Err(LineStop::Fault(StateKind::BadName));
    };
    let Some(at) = moment(rest) else {
        return Err(LineStop::Fault(StateKind::BadDate));
    };
    if state.get(name.as_slice()).is_some() {
        return Err(LineStop::Fault(StateKind::Twice));
    }
    state.add(name, at)?;
    Ok(())
}
