//! The limits of a script.

/// Commands of a script.
pub const MOST_COMMANDS: usize = 100_000;

/// Names that were made and are in use.
pub const MOST_NAMES: u32 = 10_000;

/// Brushes of a script.
pub const MOST_BRUSHES: u32 = 1_024;

/// Tables of a script.
pub const MOST_TABLES: u32 = 256;

/// Bitmaps in use.
pub const MOST_BITMAPS: u32 = 4_096;

/// Pixels of a surface.
pub const MOST_PIXELS: u64 = 4_194_304;

/// Pixels of all bitmaps in use together.
pub const MOST_BITMAP_PIXELS: u64 = 16_777_216;

/// Rectangles of all named regions together.
pub const MOST_REGION_RECTS: u32 = 262_144;
