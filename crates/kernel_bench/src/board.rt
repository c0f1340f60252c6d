//! What the kernels are given: bytes, calls and brushes.

ghost use Rattle.geom_base.specs.declared.target.Target.TheVariants.{Screen};
ghost use Rattle.std.specs.Prelude.{◌≡◌, ◌*◌, IfOk, None, false, length, vec_len};
ghost use Rattle.pix_format.specs.Value.{bits_of};
ghost use Rattle.surf_obj.specs.Layout.{layout_from};

use brush_obj::{BltCall, BrushObj, BrushRefusal, CopyCall, Hatch, PaintCall};
use geom_base::{Point, Rect, Size, Target};
use pix_format::{ColourTable, Format, Rgb};
use rop_mix::{Mix, Rop4};
use std::alloc::{AllocError, Global};
use surf_obj::Layout;

/// The size of every surface.
pub const SIZE: Size = Size { w: 1024, h: 768 };

/// All its points.
pub const WHOLE: Rect = Rect {
    left: 0,
    top: 0,
    right: 1024,
    bottom: 768,
};

/// All its points that have others above and to the left.
pub const SHIFTED: Rect = Rect {
    left: 1,
    top: 1,
    right: 1024,
    bottom: 768,
};

const ORIGIN: Point = Point { x: 0, y: 0 };

pub const WHITE: Rgb = Rgb {
    r: 255,
    g: 255,
    b: 255,
};

const RED: Rgb = Rgb { r: 255, g: 0, b: 0 };

/// The bytes from a row to the next one.
pub fn stride_of(format: Format) -> u32
    ensures { result ≡ 128 * bits_of format }
{
    128 * format.bits()
}

/// How the bytes of a surface hold it.
pub fn layout_of(format: Format) -> Layout
    ensures { result ≡ layout_from (record { w = 1024; h = 768 }) format (128 * bits_of format) false }
{
    Layout::new(SIZE, format, stride_of(format), false)
}

/// So many bytes of few values, each of them in four bytes at once, or of many.
pub fn noise(alloc: Global, len: usize, few: bool) -> Result<Vec<u8>, AllocError>
    ensures { IfOk result (λ v. vec_len v ≡ len) }
{
    let mut bytes = zeros(alloc, len)?;
    scatter(bytes.as_mut_slice(), few);
    Ok(bytes)
}

fn zeros(alloc: Global, len: usize) -> Result<Vec<u8>, AllocError>
    ensures { IfOk result (λ v. vec_len v ≡ len) }
{
    vec![in alloc; 0u8; len]
}

fn scatter(bytes: &mut [u8], few: bool) {
    for i in 0..bytes.len() {
        let mixed = ((i & 0xff_ffff) as u32).wrapping_mul(0x9e37_79b1);
        let cell = ((i / 4) & 0xff_ffff) as u32;
        bytes[i] = if few {
            (cell % 16 * 17) as u8
        } else {
            (mixed >> 24) as u8
        };
    }
}

/// A copy, whose source is another surface or the target itself.
pub fn copy_call(rect: Rect, held: Option<Target>) -> CopyCall
    ensures held { result.held ≡ held }
    ensures target { result.target ≡ Screen }
{
    CopyCall {
        target: Target::Screen,
        rect,
        held,
        src: ORIGIN,
    }
}

/// A raster operation whose source is another surface.
pub fn blt_call(code: u16) -> BltCall
    ensures { result.held ≡ None }
{
    BltCall {
        target: Target::Screen,
        rect: WHOLE,
        held: None,
        src: ORIGIN,
        mask: ORIGIN,
        origin: ORIGIN,
        rop: Rop4::of(code),
    }
}

/// A paint in a mix.
pub fn paint_call(mix: Mix) -> PaintCall {
    PaintCall {
        target: Target::Screen,
        rect: WHOLE,
        origin: ORIGIN,
        mix,
    }
}

pub fn solid(alloc: Global) -> BrushObj {
    BrushObj::solid(alloc, RED)
}

pub fn hatch(alloc: Global) -> BrushObj {
    BrushObj::hatch(alloc, Hatch::Cross, RED, WHITE)
}

/// A pattern of 8 by 8 pixels of 32 bits.
pub fn pattern(alloc: Global) -> Result<BrushObj, BrushRefusal> {
    let table = ColourTable::standard(alloc, Format::B32)?;
    let size = Size { w: 8, h: 8 };
    BrushObj::pattern(alloc, size, Format::B32, &table, &[0x12_3456; 64], WHITE)
}
