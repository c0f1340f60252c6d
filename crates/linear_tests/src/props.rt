//! What the calls are drawn with.

ghost use Rattle.std.specs.Prelude.{◌≡◌, [], IfOk};
ghost use Rattle.pix_format.specs.Standard.{standard_colours};
ghost use Rattle.pix_format.specs.declared.format.Format.TheVariants.{B8};

use brush_obj::{BrushObj, Hatch};
use geom_base::{Rect, Size};
use pix_format::{ColourTable, Format, Rgb, XlateObj};
use std::alloc::{AllocError, Global};

/// The size of the screen, and of all that is lent.
pub const SIZE: Size = Size { w: 6, h: 4 };

/// All its points.
pub const WHOLE: Rect = Rect {
    left: 0,
    top: 0,
    right: 6,
    bottom: 4,
};

/// What the screen shows before a call, row by row.
pub const BEFORE: [u8; 24] = [
    0x10, 0x11, 0x12, 0x13, 0x14, 0x15, //
    0x20, 0x21, 0x22, 0x23, 0x24, 0x25, //
    0x30, 0x31, 0x32, 0x33, 0x34, 0x35, //
    0x40, 0x41, 0x42, 0x43, 0x44, 0x45,
];

/// What a source shows that is lent.
pub const SOURCE: [u8; 24] = [
    0xa0, 0xa1, 0xa2, 0xa3, 0xa4, 0xa5, //
    0xb0, 0xb1, 0xb2, 0xb3, 0xb4, 0xb5, //
    0xc0, 0xc1, 0xc2, 0xc3, 0xc4, 0xc5, //
    0xd0, 0xd1, 0xd2, 0xd3, 0xd4, 0xd5,
];

/// A mask that is set where the coordinates have an even sum.
pub const MASK: [u8; 4] = [0xa8, 0x54, 0xa8, 0x54];

const WHITE: Rgb = Rgb {
    r: 0xff,
    g: 0xff,
    b: 0xff,
};

const RED: Rgb = Rgb {
    r: 0xff,
    g: 0,
    b: 0,
};

/// The colours of the screen, and the translation to it from a source with the same.
#[derive(Drop)]
pub(crate) struct Props {
    pub(crate) table: ColourTable,
    pub(crate) xlate: XlateObj,
    ghost colours: { table ≡ standard_colours B8 },
    ghost source: { xlate.from ≡ B8 },
    ghost target: { xlate.to ≡ B8 },
}

impl Props {
    /// These, with the colours that the values of a byte have where none are given.
    pub(crate) fn new(alloc: Global) -> Result<Props, AllocError> {
        let table = ColourTable::standard(alloc, Format::B8)?;
        let xlate = XlateObj::build(alloc, Format::B8, &table, Format::B8, &table, WHITE)?;
        Ok(Props { table, xlate })
    }
}

/// A hatch of both diagonals in red, else white; or all in white.
pub(crate) fn brush(alloc: Global, hatched: bool) -> BrushObj
    ensures { result.slots ≡ [] }
{
    if hatched {
        BrushObj::hatch(alloc, Hatch::DiagCross, RED, WHITE)
    } else {
        BrushObj::solid(alloc, WHITE)
    }
}
