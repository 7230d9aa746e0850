// Whether two shapes have something in common.
ghost use Rattle.std.specs.Prelude.{◌≡◌, ◌↔◌, ◌<◌, ◌≤◌, ◌++◌, true, length, take, drop, IfSome};
ghost use Rattle.std.specs.Str.{bytes_eq};
ghost use Rattle.lr_shapes.specs.Pieces.{plain};
ghost use Rattle.lr_shapes.specs.Shapes.{tokens_of};
ghost use Rattle.lr_shapes.specs.Deciding.{may_be_empty, meet};
ghost use Rattle.lr_shapes.specs.Tokens.{HaveCommon};

use crate::shape::Shape;
use crate::step::step;
use crate::token::Token;

// Whether nothing has the shape.
fn can_be_empty(s: &Shape) -> bool
    ensures { result ≡ may_be_empty (tokens_of s.now) }
{
    let mut left = *s;
    while let Some((token, rest)) = step(&left) {
        match token {
            Token::Digits => left = rest,
            Token::Byte(_) | Token::Digit => return false,
        }
    }
    true
}

// Whether some bytes have both shapes, from the front.
fn do_meet(a: &Shape, b: &Shape) -> bool
    ensures { result ≡ meet (tokens_of a.now) (tokens_of b.now) }
{
    let Some((first, more)) = step(a) else {
        return can_be_empty(b);
    };
    let Some((second, rest)) = step(b) else {
        return match first {
            Token::Digits => do_meet(&more, b),
            Token::Byte(_) | Token::Digit => false,
        };
    };
    match (first, second) {
        (Token::Byte(x), Token::Byte(y)) => x == y && do_meet(&more, &rest),
        (Token::Byte(x), Token::Digit) => x.is_ascii_digit() && do_meet(&more, &rest),
        (Token::Byte(x), Token::Digits) => do_meet(a, &rest)
            || x.is_ascii_digit() && do_meet(&more, b),
        (Token::Digit, Token::Byte(y)) => y.is_ascii_digit() && do_meet(&more, &rest),
        (Token::Digit, Token::Digit) => do_meet(&more, &rest),
        (Token::Digit, Token::Digits) => do_meet(a, &rest) || do_meet(&more, b),
        (Token::Digits, Token::Byte(y)) => do_meet(&more, b)
            || y.is_ascii_digit() && do_meet(a, &rest),
        (Token::Digits, Token::Digit) => do_meet(&more, b) || do_meet(a, &rest),
        (Token::Digits, Token::Digits) => do_meet(&more, b) || do_meet(a, &rest),
    }
}

// The same shape, whose bytes at the front stand in its first part.
fn fronted<'a>(s: &Shape<'a>) -> Shape<'a>
    ensures { tokens_of result ≡ tokens_of s.now }
{
    if let [_, ..] = s.dir {
        return *s;
    }
    if let [_, ..] = s.slash {
        return Shape {
            dir: s.slash,
            slash: &[],
            ..*s
        };
    }
    if let [_, ..] = s.base {
        return Shape {
            dir: s.base,
            base: &[],
            ..*s
        };
    }
    *s
}

// What is left behind so many bytes.
fn bytes_behind(bytes: &[u8], n: usize) -> &[u8]
    requires { n ≤ length bytes.now }
    ensures { result.now ≡ drop n bytes.now }
{
    &bytes[n..]
}

// What is left of a shape behind so many bytes of its first part.
fn behind<'a>(s: &Shape<'a>, n: usize) -> Shape<'a>
    requires { n ≤ length s.now.dir.now }
    ensures { tokens_of s.now ≡ plain (take n s.now.dir.now) ++ tokens_of result }
{
    let rest = bytes_behind(s.dir, n);
    fronted(&Shape { dir: rest, ..*s })
}

// How many bytes both have, where both have some.
fn shared(a: &[u8], b: &[u8]) -> Option<usize>
    ensures { IfSome result (λ n. (0 < n) × ((n ≤ length a.now) × (n ≤ length b.now))) }
{
    let n = a.len().min(b.len());
    if n > 0 { Some(n) } else { None }
}

// Whether so many bytes of both are the same.
fn begin_same(a: &[u8], b: &[u8], n: usize) -> bool
    requires a { n ≤ length a.now }
    requires b { n ≤ length b.now }
    ensures { result ≡ bytes_eq (take n a.now) (take n b.now) }
{
    a[..n] == b[..n]
}

/// Whether some bytes have both shapes.
pub fn have_common<'a, 'b>(a: &Shape<'a>, b: &Shape<'b>) -> bool
    ensures { (result ≡ true) ↔ HaveCommon (tokens_of a.now) (tokens_of b.now) }
{
    let mut left = fronted(a);
    let mut right = fronted(b);
    // What both begin with is most of two paths, so it is compared at once, and not token by token.
    while let Some(n) = shared(left.dir, right.dir) {
        if !begin_same(left.dir, right.dir, n) {
            return false;
        }
        left = behind(&left, n);
        right = behind(&right, n);
    }
    do_meet(&left, &right)
}
