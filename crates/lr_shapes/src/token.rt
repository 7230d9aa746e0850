// What stands at one place of a shape.

/// A part of a shape.
#[derive(Clone, Copy)]
pub enum Token {
    /// This byte.
    Byte(u8),
    /// Any one digit.
    Digit,
    /// Any run of digits, also none.
    Digits,
}
