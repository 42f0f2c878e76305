/// What was begun of the next piece of a text.
#[derive(Clone, Copy, Drop)]
pub enum Mode {
    Between,
    /// After `-`.
    Dash,
    Comment,
    /// After `:`.
    Colon,
    /// An identifier whose last byte is a letter or a digit.
    Name,
    /// An identifier whose last byte is `_`.
    Underscore,
    /// The digits of an integer, or those of a real number before its point.
    Digits,
    /// After the point of a real number.
    Point,
    /// The digits after the point.
    Fraction,
    /// After `e` or `E`.
    Exponent,
    /// After the sign of an exponent.
    Sign,
    /// The digits of an exponent.
    Power,
    Quoted,
}
