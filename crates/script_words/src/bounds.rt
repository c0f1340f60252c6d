//! The bounds of numbers, names and places.

/// Decimal digits of a number.
pub const MOST_DIGITS: usize = 9;

/// The greatest number that so many digits spell.
pub const GREATEST_NUMBER: i32 = 999_999_999;

/// Letters, digits and underscores of a name.
pub const MOST_NAME_BYTES: usize = 32;

/// The least edge of a rectangle.
pub const LEAST_COORDINATE: i32 = -32_768;

/// The greatest edge of a rectangle.
pub const GREATEST_COORDINATE: i32 = 32_767;

/// The greatest coordinate of a point, whose rectangle of one pixel has edges of these bounds.
pub const GREATEST_POINT: i32 = 32_766;
