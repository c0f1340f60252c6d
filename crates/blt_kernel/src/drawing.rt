//! Drawings: what is drawn with, and how it is combined.

ghost use Rattle.std.specs.Prelude.{◌≡◌, ◌≤◌, ◌+◌, IsTrue, IfSome, length};
ghost use Rattle.surf_obj.specs.Lent.{size_of, format_of};
ghost use Rattle.blt_kernel.specs.InnerFills.{FillsWith, takes_pattern_alone};
ghost use Rattle.blt_kernel.specs.InnerOrder.{KeepsSource};
ghost use Rattle.blt_kernel.specs.InnerWays.{IsWayOf};
ghost use Rattle.blt_kernel.specs.InnerDrawing.{HasOperands, IsDrawn, GivesRun};

use crate::edges::Edges;
use crate::mask::Mask;
use crate::source::{SourcePixels, read_source};
use crate::way::Way;
use brush_obj::Ink;
use geom_base::Point;
use pix_format::Format;
use rop_mix::{Rop4, apply_fill, apply_masked, apply_row, apply_solid, rop3};
use surf_obj::LentSurf;

/// A raster operation with all that it needs.
#[derive(Clone, Copy)]
pub struct Drawing<'a> {
    pub rop: Rop4,
    pub source: Option<SourcePixels<'a>>,
    pub mask: Option<Mask<'a>>,
    pub ink: Ink<'a>,
    /// The point where the ink's square begins.
    pub origin: Point,
}

impl<'a> Drawing<'a> {
    /// The order in which each point of the target is read before it is drawn: from the top and from the left, or else from the
    /// bottom and from the right.
    pub fn is_forward(&self) -> bool
        ensures { KeepsSource self.now.source result }
    {
        match &self.source {
            Some(source) => source.is_ahead(),
            None => true,
        }
    }

    /// Draws a run of at most 512 pixels.
    pub fn draw_run(&self, dst: &mut LentSurf<'_>, x: u32, y: u32, len: usize)
        requires short { len ≤ 512 }
        requires able { HasOperands self.now (size_of dst.old) (format_of dst.old) x y (x + len) (y + 1) }
        ensures { IsDrawn self.now x y (x + len) (y + 1) dst.old dst.new }
    {
        let mut values = [0; 512];
        let values = &mut values[..len];
        self.combine(dst, x, y, values);
        dst.write_row(Point::at(x, y), values);
    }

    /// How it goes along the rows of a box.
    pub fn way(&self, dst: &LentSurf<'_>, edges: &Edges) -> Way<'a>
        requires across { edges.now.left ≤ edges.now.right }
        requires able { HasOperands self.now (size_of dst.now) (format_of dst.now) edges.now.left edges.now.top edges.now.right edges.now.bottom }
        ensures { IsWayOf self.now (format_of dst.now) edges.now.left result }
    {
        if let Some(value) = self.fill_value(dst.format()) {
            return Way::Fill(value);
        }
        match (self.mask, self.source) {
            (None, Some(source))
                if self.rop.code_where_clear() == 0xcc && source.has_target_bytes(dst, edges) => {
                Way::Copy(source)
            }
            _ => Way::Combine,
        }
    }

    /// The value that all pixels get, where it is the same whatever the source and the old values.
    pub fn fill_value(&self, format: Format) -> Option<u32>
        ensures { IfSome result (FillsWith self.now format) }
    {
        let code = self.rop.code_where_clear();
        match (self.mask, self.ink) {
            (None, Ink::Solid(pattern)) if takes_pattern_alone(code) => {
                Some(rop3(code, pattern, 0, 0, format.bits()))
            }
            _ => None,
        }
    }

    /// The new values of a run.
    fn combine(&self, dst: &LentSurf<'_>, x: u32, y: u32, values: &mut [u32])
        requires short { length values.old ≤ 512 }
        requires able { HasOperands self.now (size_of dst.now) (format_of dst.now) x y (x + length values.old) (y + 1) }
        ensures { GivesRun self.now dst.now x y values.new }
    {
        match self.mask {
            Some(mask) => self.combine_masked(&mask, dst, x, y, values),
            None => self.combine_unmasked(dst, x, y, values),
        }
    }

    /// The new values of a run, each by one of two codes.
    fn combine_masked(
        &self,
        mask: &Mask<'_>,
        dst: &LentSurf<'_>,
        x: u32,
        y: u32,
        values: &mut [u32],
    )
        requires mask { self.now.mask ≡ Some mask.now }
        requires short { length values.old ≤ 512 }
        requires able { HasOperands self.now (size_of dst.now) (format_of dst.now) x y (x + length values.old) (y + 1) }
        ensures { GivesRun self.now dst.now x y values.new }
    {
        let len = values.len();
        let format = dst.format();
        let mut pattern = [0; 512];
        let pattern = &mut pattern[..len];
        self.ink.fill_row(self.origin, Point::at(x, y), pattern);
        let mut source = [0; 512];
        let source = &mut source[..len];
        read_source(&self.source, dst, x, y, source);
        let mut bits = [0; 512];
        let bits = &mut bits[..len];
        mask.read_run(x, y, bits);
        dst.read_row(Point::at(x, y), values);
        apply_masked(self.rop, bits, pattern, source, values, format.bits());
    }

    /// The new values of a run by one code.
    fn combine_unmasked(&self, dst: &LentSurf<'_>, x: u32, y: u32, values: &mut [u32])
        requires mask { self.now.mask ≡ None }
        requires short { length values.old ≤ 512 }
        requires able { HasOperands self.now (size_of dst.now) (format_of dst.now) x y (x + length values.old) (y + 1) }
        ensures { GivesRun self.now dst.now x y values.new }
    {
        match self.source {
            Some(source) => self.combine_source(&source, dst, x, y, values),
            None => self.combine_pattern(dst, x, y, values),
        }
    }

    /// The new values of a run by one code that needs no source.
    fn combine_pattern(&self, dst: &LentSurf<'_>, x: u32, y: u32, values: &mut [u32])
        requires mask { self.now.mask ≡ None }
        requires source { self.now.source ≡ None }
        requires short { length values.old ≤ 512 }
        requires able { HasOperands self.now (size_of dst.now) (format_of dst.now) x y (x + length values.old) (y + 1) }
        ensures { GivesRun self.now dst.now x y values.new }
    {
        let code = self.rop.code_where_clear();
        let format = dst.format();
        dst.read_row(Point::at(x, y), values);
        if let Ink::Solid(value) = self.ink {
            apply_fill(code, value, values, format.bits());
            return;
        }
        let mut pattern = [0; 512];
        let pattern = &mut pattern[..values.len()];
        self.ink.fill_row(self.origin, Point::at(x, y), pattern);
        let mut source = [0; 512];
        let source = &mut source[..values.len()];
        read_source(&self.source, dst, x, y, source);
        apply_row(code, pattern, source, values, format.bits());
    }

    /// The new values of a run by one code that needs a source.
    fn combine_source(
        &self,
        source: &SourcePixels<'_>,
        dst: &LentSurf<'_>,
        x: u32,
        y: u32,
        values: &mut [u32],
    )
        requires mask { self.now.mask ≡ None }
        requires source { self.now.source ≡ Some source.now }
        requires short { length values.old ≤ 512 }
        requires able { HasOperands self.now (size_of dst.now) (format_of dst.now) x y (x + length values.old) (y + 1) }
        ensures { GivesRun self.now dst.now x y values.new }
    {
        let code = self.rop.code_where_clear();
        if code == 0xcc {
            source.read_run(dst, x, y, values);
            return;
        }
        let len = values.len();
        let format = dst.format();
        let mut own = [0; 512];
        let own = &mut own[..len];
        source.read_run(dst, x, y, own);
        dst.read_row(Point::at(x, y), values);
        if let Ink::Solid(value) = self.ink {
            apply_solid(code, value, own, values, format.bits());
            return;
        }
        let mut pattern = [0; 512];
        let pattern = &mut pattern[..len];
        self.ink.fill_row(self.origin, Point::at(x, y), pattern);
        apply_row(code, pattern, own, values, format.bits());
    }
}

/// Whether a code's results depend on the pattern alone.
fn takes_pattern_alone(code: u8) -> bool
    ensures { IsTrue result → IsTrue (takes_pattern_alone code) }
{
    matches!(code, 0x00 | 0x0f | 0xf0 | 0xff)
}
