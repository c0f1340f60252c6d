/// How much a clip leaves of its bounds.
#[derive(Clone, Copy, Debug, PartialEq, Eq)]
pub enum Complexity {
    /// All of them.
    Trivial,
    /// One rectangle.
    Rect,
    /// Anything else.
    Complex,
}
