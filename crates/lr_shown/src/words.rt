// The words for what was decided of a log.
ghost use Rattle.std.specs.Prelude.{◌≡◌};
ghost use Rattle.lr_shown.specs.Lines.{why_text, why_not_text};

use lr_due::{Why, WhyNot};

pub fn why_name(why: Why) -> &'static [u8]
    ensures { result.now ≡ why_text why }
{
    match why {
        Why::Forced => b"forced",
        Why::Size => b"size",
        Why::MaxSize => b"maxsize",
        Why::Calendar => b"calendar",
        Why::Future => b"future",
    }
}

pub fn why_not_name(why: WhyNot) -> &'static [u8]
    ensures { result.now ≡ why_not_text why }
{
    match why {
        WhyNot::Young => b"young",
        WhyNot::Empty => b"empty",
        WhyNot::Small => b"small",
        WhyNot::Early => b"early",
    }
}
