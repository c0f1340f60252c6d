/// The order in which the rectangles of a clip are handed out: bands downwards or upwards, in a band to the right or to the left.
#[derive(Clone, Copy, Debug, PartialEq, Eq)]
pub enum Direction {
    RightDown,
    LeftDown,
    RightUp,
    LeftUp,
    /// The order doesn't matter; it is that of `RightDown`.
    Any,
}
