// The numbers that a trial draws.
ghost use Rattle.std.specs.Prelude.{◌≡◌, ◌<◌, ◌%◌, ◌^◌};
ghost use Rattle.lr_nights.specs.Draws.{next, drawn};

/// The next number, below 2 ^ 31.
pub fn draw(x: &mut u64) -> u64
    ensures next { x.new ≡ next x.old }
    ensures drawn { result ≡ drawn (next x.old) }
    ensures bound { result < 2 ^ 31 }
{
    *x = x
        .wrapping_mul(6_364_136_223_846_793_005)
        .wrapping_add(1_442_695_040_888_963_407);
    *x / (1 << 33)
}

/// The first draw of a trial with one log, so that its definition has `rotate 2`.
pub fn first_draw()
    ensures next { next 1 ≡ 7806831264735756412 }
    ensures drawn { drawn (next 1) ≡ 908834774 }
    ensures rest { drawn (next 1) % 7 ≡ 1 }
{}
