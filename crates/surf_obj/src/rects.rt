//! Rectangles, read and written as lists of values.

ghost use Rattle.std.specs.Prelude.{◌≡◌, ◌<◌, ◌*◌, ◌^◌, ◌+ℤ◌, ◌≤ℤ◌, pos, length, All};
ghost use Rattle.geom_base.specs.Points.{is_in, LiesIn, width_of, height_of};
ghost use Rattle.geom_base.specs.Step.{redrawn};
ghost use Rattle.pix_format.specs.Value.{bits_of};
ghost use Rattle.surf_obj.specs.Layout.{values_in, Holds, SamePadding};
ghost use Rattle.surf_obj.specs.Rects.{ReadsRect, with_values};

use crate::layout::Layout;
use crate::lent::LentSurf;
use crate::view::LentView;
use geom_base::{Point, Rect, Size};

impl LentView<'_> {
    ghost use Rattle.surf_obj.specs.View.{view_values, view_size, view_format};

    /// Reads the values of a rectangle, row by row.
    pub fn read_rect(&self, rect: &Rect, out: &mut [u32])
        requires inside { LiesIn rect.now (view_size self.now) }
        requires count { length out.old ≡ width_of rect.now * height_of rect.now }
        ensures values { ReadsRect rect.now (view_size self.now) (view_values self.now) out.new }
        ensures fits { All (λ v. v < 2 ^ bits_of (view_format self.now)) out.new }
    {
        let Size { w, h } = rect.size();
        let width = w as usize;
        for row in 0..h {
            let start = row as usize * width;
            self.read_row(first_of(rect, row), &mut out[start..start + width]);
        }
    }
}

impl LentSurf<'_> {
    ghost use Rattle.surf_obj.specs.Lent.{values_of, size_of, format_of, OnlyPixels};

    /// Gives the points of a rectangle these values, row by row.
    pub fn write_rect(&mut self, rect: &Rect, values: &[u32])
        requires inside { LiesIn rect.now (size_of self.old) }
        requires count { length values.now ≡ width_of rect.now * height_of rect.now }
        requires fits { All (λ v. v < 2 ^ bits_of (format_of self.old)) values.now }
        ensures values { values_of self.new
            ≡ redrawn (size_of self.old) (values_of self.old) (λ p. is_in p rect.now) (with_values rect.now values.now) }
        ensures only { OnlyPixels self.old self.new }
    {
        let Size { w, h } = rect.size();
        let width = w as usize;
        for row in 0..h {
            let start = row as usize * width;
            self.write_row(first_of(rect, row), &values[start..start + width]);
        }
    }
}

/// Reads the values of a rectangle of bits that hold a surface.
pub fn read_rect_on(bits: &[u8], layout: Layout, rect: &Rect, out: &mut [u32])
    requires holds { Holds layout (length bits.now) }
    requires inside { LiesIn rect.now layout.size }
    requires count { length out.old ≡ width_of rect.now * height_of rect.now }
    ensures values { ReadsRect rect.now layout.size (values_in layout bits.now) out.new }
    ensures fits { All (λ v. v < 2 ^ bits_of layout.format) out.new }
{
    LentView::on(bits, layout).read_rect(rect, out);
}

/// Gives the points of a rectangle of bits that hold a surface these values.
pub fn write_rect_on(bits: &mut [u8], layout: Layout, rect: &Rect, values: &[u32])
    requires holds { Holds layout (length bits.old) }
    requires inside { LiesIn rect.now layout.size }
    requires count { length values.now ≡ width_of rect.now * height_of rect.now }
    requires fits { All (λ v. v < 2 ^ bits_of layout.format) values.now }
    ensures values { values_in layout bits.new
        ≡ redrawn layout.size (values_in layout bits.old) (λ p. is_in p rect.now) (with_values rect.now values.now) }
    ensures padding { SamePadding layout bits.old bits.new }
{
    LentSurf::on(bits, layout).write_rect(rect, values);
}

/// The first point of a row of a rectangle.
fn first_of(rect: &Rect, row: u32) -> Point
    requires top { pos 0 ≤ℤ rect.now.top }
    requires order { rect.now.top ≤ℤ rect.now.bottom }
    requires row { row < height_of rect.now }
    ensures { result ≡ record { x = rect.now.left; y = rect.now.top +ℤ pos row } }
{
    Point {
        x: rect.left,
        y: rect.top + row as i32,
    }
}
