//! Sources.

ghost use Rattle.std.specs.Prelude.{◌≡◌, ◌≤◌, ◌<◌, ℕ, ◌+◌, ◌*◌, ◌%◌, ◌^◌, ◌↔◌, IsTrue, None, IfSome, EachIndex, All, length, slice_index};
ghost use Rattle.pix_format.specs.Value.{bits_of};
ghost use Rattle.rop_mix.specs.Needs.{source_needed};
ghost use Rattle.surf_obj.specs.Lent.{values_of, size_of, format_of, OnlyPixels};
ghost use Rattle.geom_base.specs.Points.{point_at};
ghost use Rattle.geom_base.specs.Step.{redrawn};
ghost use Rattle.blt_kernel.specs.InnerDrawing.{SourceFits, own_value, given, source_at, source_or_zero, format_from, size_from, values_from};
ghost use Rattle.blt_kernel.specs.InnerShift.{Reaches, value_shifted};
ghost use Rattle.blt_kernel.specs.InnerHanded.{source_given};
ghost use Rattle.blt_kernel.specs.InnerOrder.{KeepsOwnSource};
ghost use Rattle.blt_kernel.specs.InnerWays.{HasTargetBytes, AreAligned};
ghost use Rattle.geom_base.specs.Points.{is_in, box_of};

use crate::edges::Edges;
use crate::shift::Shift;
use geom_base::{Point, Size, Target};
use pix_format::{Format, XlateKind, XlateObj};
use rop_mix::{Rop4, needs_source};
use surf_obj::{LentSurf, LentView};

/// The pixels that are drawn, and how they become values of the target.
#[derive(Clone, Copy)]
pub struct SourcePixels<'a> {
    /// The surface that was lent, or none where the target itself is the source.
    pub lent: Option<&'a LentView<'a>>,
    pub shift: Shift,
    pub xlate: &'a XlateObj,
}

impl SourcePixels<'_> {
    /// The source's size, for a target of a size.
    pub fn size(&self, target: Size) -> Size
        ensures { result ≡ size_from self.now.lent target }
    {
        match self.lent {
            Some(view) => view.size(),
            None => target,
        }
    }

    /// Whether a drawing with this source reads each point of the target before it draws there, if it goes from the top and from
    /// the left. If not, it does so from the bottom and from the right.
    pub fn is_ahead(&self) -> bool
        ensures { KeepsOwnSource self.now.lent self.now.shift result }
    {
        match self.lent {
            Some(_) => true,
            None => self.shift.is_ahead(),
        }
    }

    /// Whether it has the bytes that the rows of a box get where they get its pixels.
    pub fn has_target_bytes(&self, dst: &LentSurf<'_>, edges: &Edges) -> bool
        requires across { edges.now.left ≤ edges.now.right }
        requires fits { SourceFits (size_of dst.now) (format_of dst.now) edges.now.left edges.now.top edges.now.right edges.now.bottom self.now }
        ensures { IsTrue result → HasTargetBytes (format_of dst.now) edges.now.left self.now }
    {
        self.xlate.kind() == XlateKind::Trivial && self.is_aligned(dst, edges)
    }

    /// Whether its pixels for the first column of a box begin at the same bit of a byte as those.
    fn is_aligned(&self, dst: &LentSurf<'_>, edges: &Edges) -> bool
        requires across { edges.now.left ≤ edges.now.right }
        requires fits { SourceFits (size_of dst.now) (format_of dst.now) edges.now.left edges.now.top edges.now.right edges.now.bottom self.now }
        ensures { IsTrue result → AreAligned self.now.lent self.now.shift (format_of dst.now) edges.now.left }
    {
        let format = dst.format();
        match self.lent {
            Some(_) => same_bit(format, edges.left, self.shift.column(edges.left)),
            None => format.bits() % 8 == 0,
        }
    }

    /// Copies a row of its pixels as bytes.
    pub fn copy_row(&self, dst: &mut LentSurf<'_>, x: u32, y: u32, len: usize)
        requires columns { x + len ≤ (size_of dst.old).w }
        requires row { y < (size_of dst.old).h }
        requires there { Reaches self.now.shift (size_from self.now.lent (size_of dst.old)) x y (x + len) (y + 1) }
        requires bytes { HasTargetBytes (format_of dst.old) x self.now }
        ensures values { values_of dst.new ≡
            redrawn (size_of dst.old) (values_of dst.old) (λ p. is_in p (box_of x y (x + len) (y + 1))) (given self.now (size_of dst.old) (values_of dst.old)) }
        ensures fits { (k : ℕ) → k < len → own_value self.now (size_of dst.old) (values_of dst.old) (point_at (x + k) y) < 2 ^ bits_of (format_of dst.old) }
        ensures only { OnlyPixels dst.old dst.new }
    {
        let at = Point::at(x, y);
        let from = Point::at(self.shift.column(x), self.shift.row(y));
        match self.lent {
            Some(view) => dst.copy_row(at, len, view, from),
            None => dst.move_row(at, len, from),
        }
    }

    /// Reads the source's values for a run of the target, as the target keeps them.
    pub fn read_run(&self, dst: &LentSurf<'_>, x: u32, y: u32, out: &mut [u32])
        requires { SourceFits (size_of dst.now) (format_of dst.now) x y (x + length out.old) (y + 1) self.now }
        ensures values { EachIndex out.new (λ k. slice_index out.new k ≡ source_at self.now (size_of dst.now) (values_of dst.now) (point_at (x + k) y)) }
        ensures fits { All (λ v. v < 2 ^ bits_of (format_of dst.now)) out.new }
    {
        self.read_own(dst, x, y, out);
        self.xlate.xlate_row(out);
    }

    /// Reads the source's own values for a run of the target.
    fn read_own(&self, dst: &LentSurf<'_>, x: u32, y: u32, out: &mut [u32])
        requires { Reaches self.now.shift (size_from self.now.lent (size_of dst.now)) x y (x + length out.old) (y + 1) }
        ensures values { EachIndex out.new
            (λ k. slice_index out.new k ≡ value_shifted self.now.shift (size_from self.now.lent (size_of dst.now))
            (values_from self.now.lent (values_of dst.now)) (point_at (x + k) y)) }
        ensures fits { All (λ v. v < 2 ^ bits_of (format_from self.now.lent (format_of dst.now))) out.new }
    {
        let from = Point::at(self.shift.column(x), self.shift.row(y));
        match self.lent {
            Some(view) => view.read_row(from, out),
            None => dst.read_row(from, out),
        }
    }
}

/// Whether two columns begin at the same bit of a byte.
fn same_bit(format: Format, a: u32, b: u32) -> bool
    ensures { IsTrue result → a * bits_of format % 8 ≡ b * bits_of format % 8 }
{
    match format {
        Format::B1 => a % 8 == b % 8,
        Format::B4 => a % 2 == b % 2,
        Format::B8 | Format::B555 | Format::B565 | Format::B24 | Format::B32 => true,
    }
}

/// Whether a raster operation needs a source, and neither is one lent nor is one held.
pub fn lacks_source(rop: Rop4, held: Option<Target>, lent: Option<&LentView<'_>>) -> bool
    ensures { IsTrue result ↔ (IsTrue (source_needed rop.code) × (held ≡ None) × (lent.entry ≡ None)) }
{
    match lent {
        Some(_) => false,
        None => held.is_none() && needs_source(rop),
    }
}

/// The source of a raster operation, or none where it needs none.
pub fn source_for<'a>(
    rop: Rop4,
    lent: Option<&'a LentView<'a>>,
    shift: Shift,
    xlate: &'a XlateObj,
) -> Option<SourcePixels<'a>>
    ensures { result ≡ source_given (source_needed rop.code) lent.entry shift xlate.entry }
{
    if !needs_source(rop) {
        return None;
    }
    Some(SourcePixels { lent, shift, xlate })
}

/// Reads a source for a run of the target, or nothing but 0 where there is none.
pub fn read_source(
    source: &Option<SourcePixels<'_>>,
    dst: &LentSurf<'_>,
    x: u32,
    y: u32,
    out: &mut [u32],
)
    requires { IfSome source.now (SourceFits (size_of dst.now) (format_of dst.now) x y (x + length out.old) (y + 1)) }
    ensures { EachIndex out.new (λ k. slice_index out.new k ≡ source_or_zero source.now (size_of dst.now) (values_of dst.now) (point_at (x + k) y)) }
{
    match source {
        Some(source) => source.read_run(dst, x, y, out),
        None => out.fill(0),
    }
}
