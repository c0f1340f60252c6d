//! Where rows and pixels lie in bytes.

ghost use Rattle.std.specs.Prelude.{◌≡◌, ◌≤◌, ◌<◌, ◌+◌, ◌-◌, ◌*◌, ◌%◌, ◌^◌, pos, ◌≤ℤ◌};
ghost use Rattle.geom_base.specs.Points.{most_side};
ghost use Rattle.pix_format.specs.Value.{bits_of};
ghost use Rattle.surf_obj.specs.InnerRuns.{IsWholePart};
ghost use Rattle.surf_obj.specs.Layout.{layout_from, row_bytes, row_start, rows_of, delta_of};
ghost use Rattle.surf_obj.specs.Object.{padded};

use geom_base::Size;
use pix_format::Format;

/// Where the pixels of a surface lie in its bytes: its width and height, how a pixel is kept, the byte at which the first row in
/// them begins, the bytes from a row to the next one, and whether the lowest row is the first.
#[derive(Clone, Copy, Debug, PartialEq, Eq)]
pub struct Layout {
    pub size: Size,
    pub format: Format,
    pub start: usize,
    pub stride: u32,
    pub bottom_up: bool,
}

impl Layout {
    /// The layout whose rows begin at the first byte.
    pub fn new(size: Size, format: Format, stride: u32, bottom_up: bool) -> Layout
        ensures { result ≡ layout_from size format stride bottom_up }
    {
        Layout {
            size,
            format,
            start: 0,
            stride,
            bottom_up,
        }
    }

    /// The layout of a size and a format in bytes of their own: the top row first, each row padded to four bytes.
    pub fn padded(size: Size, format: Format) -> Layout
        requires { size.w ≤ most_side }
        ensures { result ≡ padded size format }
    {
        let stride = (row_bytes(format, size.w) + 3) / 4 * 4;
        Layout::new(size, format, stride, false)
    }

    /// How many bytes its rows take.
    pub fn len(self) -> usize
        ensures { result ≡ self.size.h * self.stride }
    {
        self.size.h as usize * self.stride as usize
    }

    /// The layout of so many of its rows, in the same bytes.
    pub fn rows(self, top: u32, rows: u32) -> Layout
        requires inside { top + rows ≤ self.size.h }
        requires room { self.start + self.size.h * self.stride < 2 ^ 64 }
        ensures { result ≡ rows_of self top rows }
    {
        let first = if self.bottom_up {
            self.size.h - top - rows
        } else {
            top
        };
        Layout {
            size: Size {
                w: self.size.w,
                h: rows,
            },
            start: self.start + first as usize * self.stride as usize,
            ..self
        }
    }

    /// The signed distance in bytes from a row to the next one below.
    pub(crate) fn delta(self) -> i64
        ensures { result ≡ delta_of self }
    {
        if self.bottom_up {
            -(self.stride as i64)
        } else {
            self.stride as i64
        }
    }

    /// The byte at which a row begins.
    pub(crate) fn row_start(self, y: u32) -> usize
        requires row { y < self.size.h }
        requires room { self.start + self.size.h * self.stride < 2 ^ 64 }
        ensures { result ≡ row_start self y }
    {
        let row = if self.bottom_up {
            self.size.h - 1 - y
        } else {
            y
        };
        self.start + row as usize * self.stride as usize
    }
}

/// How many bytes the pixels of a row take.
#[tactic(auto, using(crate::proofs::LayoutLemmas::bits_small))]
pub fn row_bytes(format: Format, w: u32) -> u32
    requires { w ≤ most_side }
    ensures { result ≡ row_bytes format w }
{
    (w * format.bits() + 7) / 8
}

/// The part of a run of pixels that is whole bytes: the first of its pixels, and the one past the last.
pub fn whole_part(format: Format, x: u32, len: usize) -> (usize, usize)
    ensures { IsWholePart (bits_of format) x len result }
{
    match format {
        Format::B1 => whole_eights(x, len),
        Format::B4 => whole_pairs(x, len),
        _ => (0, len),
    }
}

fn whole_eights(x: u32, len: usize) -> (usize, usize)
    ensures { IsWholePart 1 x len result }
{
    let from = ((8 - x as usize % 8) % 8).min(len);
    (from, from + (len - from) / 8 * 8)
}

fn whole_pairs(x: u32, len: usize) -> (usize, usize)
    ensures { IsWholePart 4 x len result }
{
    let from = (x as usize % 2).min(len);
    (from, from + (len - from) / 2 * 2)
}
