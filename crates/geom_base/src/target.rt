/// What a driver draws on: its screen, or a bitmap that it keeps under a number.
#[derive(Clone, Copy, Debug, PartialEq, Eq)]
pub enum Target {
    Screen,
    Bitmap(u32),
}
