// The leaves of the trees, with their places.

use scanner::Place;

/// A name, with the place of its first byte.
#[derive(Clone, Copy)]
pub struct Name<'a> {
    /// The bytes of the name.
    pub text: &'a [u8],
    /// The place of its first byte.
    pub place: Place,
}

/// A number, from 0 to 2147483647, with the place of its first digit.
#[derive(Clone, Copy)]
pub struct Number {
    /// What its digits write.
    pub value: u32,
    /// The place of its first digit.
    pub place: Place,
}

/// `TRUE` or `FALSE`, with its place.
#[derive(Clone, Copy)]
pub struct Truth {
    /// Whether it is `TRUE`.
    pub value: bool,
    /// The place of the keyword.
    pub place: Place,
}
