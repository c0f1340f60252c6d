//! Why bytes cannot be a surface.

ghost use Rattle.std.specs.Prelude.{◌≡◌, IfSome, IfNone, Bool};
ghost use Rattle.geom_base.specs.Points.{HasSides};
ghost use Rattle.surf_obj.specs.Layout.{layout_from, Holds};
ghost use Rattle.surf_obj.specs.Refusals.{Refuses};

use crate::layout::row_bytes;
use geom_base::Size;
use pix_format::Format;

/// Why bytes cannot be a surface: the stride is below the bytes of a row, of which `least` is the number; or it is not, and
/// the rows need more bytes than there are.
#[derive(Clone, Copy, Debug, PartialEq, Eq)]
pub enum SurfRefusal {
    Stride { least: u32 },
    Short { needed: u64, got: u64 },
}

/// Why so many bytes cannot be a surface, or `None` where they can, from either end.
pub fn refusal_of(len: usize, size: Size, format: Format, stride: u32) -> Option<SurfRefusal>
    requires { HasSides size }
    ensures some { IfSome result (Refuses size format stride len) }
    ensures none { IfNone result ((bottom_up : Bool) → Holds (layout_from size format stride bottom_up) len) }
{
    let least = row_bytes(format, size.w);
    if stride < least {
        return Some(SurfRefusal::Stride { least });
    }
    let needed = size.h as u64 * stride as u64;
    let got = len as u64;
    if got < needed {
        return Some(SurfRefusal::Short { needed, got });
    }
    None
}
