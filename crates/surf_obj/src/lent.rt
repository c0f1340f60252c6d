//! A surface on bits that were lent to be drawn on.

ghost use Rattle.std.specs.Prelude.{◌≡◌, ◌≤◌, ◌<◌, ◌+◌, ◌-◌, ◌*◌, ◌/◌, ◌%◌, ◌^◌, ◌+ℤ◌, ℕ, pos, length, slice_set};
ghost use Rattle.std.specs.Prelude.{slice_index, slice_range, EachIndex, All, IfOk, IfErr, unsigned_abs};
ghost use Rattle.geom_base.specs.Points.{is_in, IsIn, LiesIn, whole, HasSides, point_at};
ghost use Rattle.pix_format.specs.Value.{bits_of};
ghost use Rattle.surf_obj.specs.Layout.{layout_from, row_start, rows_of, delta_of, Holds};
ghost use Rattle.surf_obj.specs.Refusals.{Refuses};
ghost use Rattle.surf_obj.specs.Runs.{box_of, copied, run_of, listed, solid};
ghost use Rattle.surf_obj.specs.InnerRuns.{given, drawn};
ghost use Rattle.geom_base.specs.Grid.{value_at, value_of_point, place_of};
ghost use Rattle.geom_base.specs.Step.{redrawn};

use crate::copies::move_bytes;
use crate::layout::{Layout, whole_part};
use crate::pixels::put_value;
use crate::refusal::{SurfRefusal, refusal_of};
use crate::runs::{Copied, Listed, Run, Solid};
use crate::view::LentView;
use geom_base::{Point, Size, coordinate};
use pix_format::Format;

/// Bits that were lent to be drawn on as a surface.
#[derive(Drop)]
pub struct LentSurf<'a> {
    bits: &'a mut [u8],
    layout: Layout,
    ghost holds: { Holds layout (length bits.now) },
}

impl<'a> LentSurf<'a> {
    ghost use Rattle.surf_obj.specs.Lent.{bytes_of, values_of, size_of, format_of, layout_of, LentOver};

    /// A surface on bits that are known to hold it.
    pub fn on(bits: &'a mut [u8], layout: Layout) -> LentSurf<'a>
        requires { Holds layout (length bits.old) }
        ensures loan { result.bits.ghost_name ≡ bits.entry.ghost_name }
        ensures bits { bytes_of result ≡ bits.old }
        ensures layout { layout_of result ≡ layout }
    {
        LentSurf { bits, layout }
    }

    /// A surface on bits, or why they cannot be one.
    pub fn over(
        bits: &'a mut [u8],
        size: Size,
        format: Format,
        stride: u32,
        bottom_up: bool,
    ) -> Result<LentSurf<'a>, SurfRefusal>
        requires { HasSides size }
        ensures ok { IfOk result (LentOver bits.entry (layout_from size format stride bottom_up)) }
        ensures err { IfErr result (Refuses size format stride (length bits.old)) }
    {
        match refusal_of(bits.len(), size, format, stride) {
            Some(refusal) => Err(refusal),
            None => Ok(LentSurf {
                bits,
                layout: Layout::new(size, format, stride, bottom_up),
            }),
        }
    }

    /// So many of its rows, as a surface on the same bits. All else in them is padding now, which no drawing changes.
    pub fn into_rows(self, top: u32, rows: u32) -> LentSurf<'a>
        requires some { 1 ≤ rows }
        requires inside { top + rows ≤ (size_of self).h }
        ensures loan { result.bits.ghost_name ≡ self.entry.bits.ghost_name }
        ensures bits { bytes_of result ≡ bytes_of self.entry }
        ensures layout { layout_of result ≡ rows_of (layout_of self.entry) top rows }
        ensures values { let w = (size_of self.entry).w in
            values_of result ≡ slice_range (values_of self.entry) (top * w) ((top + rows) * w) }
    {
        let LentSurf { bits, layout } = self;
        LentSurf {
            bits,
            layout: layout.rows(top, rows),
        }
    }
}

impl LentSurf<'_> {
    ghost use Rattle.surf_obj.specs.Lent.{bytes_of, values_of, size_of, format_of, layout_of, OnlyPixels};
    ghost use Rattle.surf_obj.specs.View.{view_bytes, view_format, view_layout, view_size, view_values};

    /// The same surface, to be read.
    pub fn as_view(&self) -> LentView<'_>
        ensures bits { view_bytes result ≡ bytes_of self.now }
        ensures layout { view_layout result ≡ layout_of self.now }
    {
        LentView::on(self.bits, self.layout)
    }

    /// Its width and height.
    pub fn size(&self) -> Size
        ensures { result ≡ size_of self.now }
    {
        self.layout.size
    }

    /// How its pixels are kept.
    pub fn format(&self) -> Format
        ensures { result ≡ format_of self.now }
    {
        self.layout.format
    }

    /// Where its pixels lie in its bytes.
    pub fn layout(&self) -> Layout
        ensures layout { result ≡ layout_of self.now }
        ensures holds { Holds result (length (bytes_of self.now)) }
    {
        self.layout
    }

    /// The signed distance in bytes from a row to the next one below.
    pub fn delta(&self) -> i64
        ensures { result ≡ delta_of (layout_of self.now) }
    {
        self.layout.delta()
    }

    /// The byte at which the top row begins.
    pub fn scan0(&self) -> usize
        ensures { result ≡ row_start (layout_of self.now) 0 }
    {
        self.layout.row_start(0)
    }

    /// The byte at which a column of a row begins, or in which it lies.
    fn place(&self, x: usize, y: u32) -> usize
        requires column { x ≤ (size_of self.now).w }
        requires row { y < (size_of self.now).h }
        ensures { result ≡ row_start (layout_of self.now) y + x * bits_of (format_of self.now) / 8 }
    {
        self.layout.row_start(y) + x * self.layout.format.bits() as usize / 8
    }

    /// The value at a point.
    pub fn get(&self, p: Point) -> u32
        requires { IsIn p (whole (size_of self.now)) }
        ensures value { result ≡ value_of_point (size_of self.now) (values_of self.now) p }
        ensures fits { result < 2 ^ bits_of (format_of self.now) }
    {
        self.as_view().get(p)
    }

    /// Reads the values of a run from a point on.
    pub fn read_row(&self, at: Point, out: &mut [u32])
        requires { LiesIn (run_of at (length out.old)) (size_of self.now) }
        ensures values { EachIndex out.new (λ k. slice_index out.new k
            ≡ value_of_point (size_of self.now) (values_of self.now) (record { x = at.x +ℤ pos k; y = at.y })) }
        ensures fits { All (λ v. v < 2 ^ bits_of (format_of self.now)) out.new }
    {
        self.as_view().read_row(at, out);
    }

    /// Sets the value at a column of a row.
    fn set_pixel(&mut self, x: u32, y: u32, value: u32)
        requires column { x < (size_of self.old).w }
        requires row { y < (size_of self.old).h }
        requires value { value < 2 ^ bits_of (format_of self.old) }
        ensures values { values_of self.new ≡ slice_set (values_of self.old) (y * (size_of self.old).w + x) value }
        ensures only { OnlyPixels self.old self.new }
    {
        let at = self.layout.row_start(y);
        put_value(self.bits, at, self.layout.format, x as usize, value);
    }

    /// Sets the value at a point.
    pub fn set(&mut self, p: Point, value: u32)
        requires inside { IsIn p (whole (size_of self.old)) }
        requires value { value < 2 ^ bits_of (format_of self.old) }
        ensures values { values_of self.new ≡ slice_set (values_of self.old) (place_of (size_of self.old) p) value }
        ensures only { OnlyPixels self.old self.new }
    {
        self.set_pixel(coordinate(p.x), coordinate(p.y), value);
    }

    /// Gives the pixels from a column of a row on the values of a run.
    fn draw_run<R: Run>(&mut self, x: u32, y: u32, len: usize, run: &R)
        requires format { R.format run.now ≡ format_of self.old }
        requires count { len ≤ R.count run.now }
        requires columns { x + len ≤ (size_of self.old).w }
        requires row { y < (size_of self.old).h }
        requires start { (k : ℕ) → (x + k) * bits_of (format_of self.old) % 8 ≡ 0 → R.may_begin run.now k }
        ensures values { values_of self.new ≡ drawn (size_of self.old) (values_of self.old) x (x + len) y (given (R.gives run.now) x) }
        ensures only { OnlyPixels self.old self.new }
    {
        let (from, to) = whole_part(self.layout.format, x, len);
        self.draw_each(x, y, run, 0, from);
        self.draw_whole(x, y, run, from, to);
        self.draw_each(x, y, run, to, len);
    }

    /// Draws a part of a run pixel by pixel.
    fn draw_each<R: Run>(&mut self, x: u32, y: u32, run: &R, from: usize, to: usize)
        requires format { R.format run.now ≡ format_of self.old }
        requires order { from ≤ to }
        requires within { to ≤ R.count run.now }
        requires columns { x + to ≤ (size_of self.old).w }
        requires row { y < (size_of self.old).h }
        ensures values { values_of self.new ≡ drawn (size_of self.old) (values_of self.old) (x + from) (x + to) y (given (R.gives run.now) x) }
        ensures only { OnlyPixels self.old self.new }
    {
        for i in from..to {
            self.set_pixel(x + i as u32, y, run.value(i));
        }
    }

    /// Draws the part of a run that is whole bytes.
    fn draw_whole<R: Run>(&mut self, x: u32, y: u32, run: &R, from: usize, to: usize)
        requires format { R.format run.now ≡ format_of self.old }
        requires order { from ≤ to }
        requires within { to ≤ R.count run.now }
        requires columns { x + to ≤ (size_of self.old).w }
        requires row { y < (size_of self.old).h }
        requires begins { from < to → R.may_begin run.now from }
        requires start { from < to → (x + from) * bits_of (format_of self.old) % 8 ≡ 0 }
        requires whole { (to - from) * bits_of (format_of self.old) % 8 ≡ 0 }
        ensures values { values_of self.new ≡ drawn (size_of self.old) (values_of self.old) (x + from) (x + to) y (given (R.gives run.now) x) }
        ensures only { OnlyPixels self.old self.new }
    {
        if from == to {
            return;
        }
        let at = self.place(x as usize + from, y);
        run.put(self.bits, at, from, to);
    }

    /// Writes the values of a run from a point on.
    pub fn write_row(&mut self, at: Point, values: &[u32])
        requires inside { LiesIn (run_of at (length values.now)) (size_of self.old) }
        requires fits { All (λ v. v < 2 ^ bits_of (format_of self.old)) values.now }
        ensures values { values_of self.new
            ≡ redrawn (size_of self.old) (values_of self.old) (λ p. is_in p (run_of at (length values.now))) (listed values.now (unsigned_abs at.x)) }
        ensures only { OnlyPixels self.old self.new }
    {
        let format = self.layout.format;
        self.draw_run(
            coordinate(at.x),
            coordinate(at.y),
            values.len(),
            &Listed { values, format },
        );
    }

    /// Writes one value to so many pixels from a point on.
    pub fn fill_row(&mut self, at: Point, len: usize, value: u32)
        requires inside { LiesIn (run_of at len) (size_of self.old) }
        requires value { value < 2 ^ bits_of (format_of self.old) }
        ensures values { values_of self.new ≡ redrawn (size_of self.old) (values_of self.old) (λ p. is_in p (run_of at len)) (solid value) }
        ensures only { OnlyPixels self.old self.new }
    {
        let format = self.layout.format;
        self.draw_run(
            coordinate(at.x),
            coordinate(at.y),
            len,
            &Solid { value, format, len },
        );
    }

    /// Copies so many pixels of a row of a surface of the same format. Both runs begin at the same bit of a byte.
    pub fn copy_row(&mut self, at: Point, len: usize, source: &LentView<'_>, from: Point)
        requires format { view_format source.now ≡ format_of self.old }
        requires inside { LiesIn (run_of at len) (size_of self.old) }
        requires source { LiesIn (run_of from len) (view_size source.now) }
        requires bit { unsigned_abs at.x * bits_of (format_of self.old) % 8
            ≡ unsigned_abs from.x * bits_of (format_of self.old) % 8 }
        ensures values { values_of self.new
            ≡ redrawn (size_of self.old) (values_of self.old) (λ p. is_in p (run_of at len)) (copied (view_size source.now) (view_values source.now) from at) }
        ensures fits { (k : ℕ) → k < len
            → value_of_point (view_size source.now) (view_values source.now) (record { x = from.x +ℤ pos k; y = from.y }) < 2 ^ bits_of (format_of self.old) }
        ensures only { OnlyPixels self.old self.new }
    {
        let x = coordinate(from.x);
        let y = coordinate(from.y);
        self.draw_run(
            coordinate(at.x),
            coordinate(at.y),
            len,
            &Copied { source, x, y, len },
        );
    }

    /// Copies so many pixels of a row of the surface to others of it, all at once. The pixels are whole bytes.
    pub fn move_row(&mut self, at: Point, len: usize, from: Point)
        requires inside { LiesIn (run_of at len) (size_of self.old) }
        requires source { LiesIn (run_of from len) (size_of self.old) }
        requires whole { bits_of (format_of self.old) % 8 ≡ 0 }
        ensures values { values_of self.new
            ≡ redrawn (size_of self.old) (values_of self.old) (λ p. is_in p (run_of at len)) (copied (size_of self.old) (values_of self.old) from at) }
        ensures fits { (k : ℕ) → k < len
            → value_of_point (size_of self.old) (values_of self.old) (record { x = from.x +ℤ pos k; y = from.y }) < 2 ^ bits_of (format_of self.old) }
        ensures only { OnlyPixels self.old self.new }
    {
        self.move_run(
            coordinate(at.x),
            coordinate(at.y),
            len,
            coordinate(from.x),
            coordinate(from.y),
        );
    }

    /// Copies so many pixels from a column of a row on to those from another on.
    fn move_run(&mut self, x: u32, y: u32, len: usize, from_x: u32, from_y: u32)
        requires columns { x + len ≤ (size_of self.old).w }
        requires row { y < (size_of self.old).h }
        requires source_columns { from_x + len ≤ (size_of self.old).w }
        requires source_row { from_y < (size_of self.old).h }
        requires whole { bits_of (format_of self.old) % 8 ≡ 0 }
        ensures values { let change = copied (size_of self.old) (values_of self.old) (point_at from_x from_y) (point_at x y) in
            values_of self.new ≡ drawn (size_of self.old) (values_of self.old) x (x + len) y change }
        ensures fits { (k : ℕ) → k < len → value_at (size_of self.old) (values_of self.old) (from_x + k) from_y < 2 ^ bits_of (format_of self.old) }
        ensures only { OnlyPixels self.old self.new }
    {
        let at = self.place(x as usize, y);
        let first = self.place(from_x as usize, from_y);
        let len = len * self.layout.format.bits() as usize / 8;
        move_bytes(self.bits, at, first, len);
    }
}
