//! A surface on bits that are only read.

ghost use Rattle.std.specs.Prelude.{◌≡◌, ◌≤◌, ◌<◌, ◌⊎◌, ◌+◌, ◌*◌, ◌-◌, ◌/◌, ◌%◌, ◌^◌, ◌+ℤ◌, pos, ℕ, length, slice_index, EachIndex, All, IfOk, IfErr};
ghost use Rattle.geom_base.specs.Points.{IsIn, LiesIn, whole, HasSides};
ghost use Rattle.pix_format.specs.Value.{bits_of};
ghost use Rattle.surf_obj.specs.Layout.{layout_from, row_start, row_bytes, pixel_in, delta_of, Holds};
ghost use Rattle.surf_obj.specs.Runs.{run_of};
ghost use Rattle.geom_base.specs.Grid.{value_at, value_of_point};
ghost use Rattle.surf_obj.specs.Refusals.{Refuses};
ghost use Rattle.surf_obj.specs.InnerBytes.{ChangesOnly};

use crate::copies::copy_bytes;
use crate::layout::{Layout, whole_part};
use crate::pixels::get_value;
use crate::refusal::{SurfRefusal, refusal_of};
use crate::rows::read_values;
use geom_base::{Point, Size, coordinate};
use pix_format::Format;

/// Bits that were lent to be read as a surface.
#[derive(Drop)]
pub struct LentView<'a> {
    bits: &'a [u8],
    layout: Layout,
    ghost holds: { Holds layout (length bits.now) },
    ghost items: { (k : ℕ) → slice_index bits.now k < 256 },
}

impl<'a> LentView<'a> {
    ghost use Rattle.surf_obj.specs.View.{view_bytes, view_layout, ViewOver};

    /// A surface on bits that are known to hold it.
    pub fn on(bits: &'a [u8], layout: Layout) -> LentView<'a>
        requires { Holds layout (length bits.now) }
        ensures bits { view_bytes result ≡ bits.now }
        ensures layout { view_layout result ≡ layout }
    {
        LentView { bits, layout }
    }

    /// A surface on bits, or why they cannot be one.
    pub fn over(
        bits: &'a [u8],
        size: Size,
        format: Format,
        stride: u32,
        bottom_up: bool,
    ) -> Result<LentView<'a>, SurfRefusal>
        requires { HasSides size }
        ensures ok { IfOk result (ViewOver bits.now (layout_from size format stride bottom_up)) }
        ensures err { IfErr result (Refuses size format stride (length bits.now)) }
    {
        match refusal_of(bits.len(), size, format, stride) {
            Some(refusal) => Err(refusal),
            None => Ok(LentView::on(bits, Layout::new(size, format, stride, bottom_up))),
        }
    }
}

impl LentView<'_> {
    ghost use Rattle.geom_base.specs.declared.point.Point.{Point};
    ghost use Rattle.surf_obj.specs.View.{view_bytes, view_values, view_size, view_format, view_layout};

    /// Its width and height.
    pub fn size(&self) -> Size
        ensures { result ≡ view_size self.now }
    {
        self.layout.size
    }

    /// How its pixels are kept.
    pub fn format(&self) -> Format
        ensures { result ≡ view_format self.now }
    {
        self.layout.format
    }

    /// Where its pixels lie in its bytes.
    pub fn layout(&self) -> Layout
        ensures layout { result ≡ view_layout self.now }
        ensures holds { Holds result (length (view_bytes self.now)) }
    {
        self.layout
    }

    /// Its bytes.
    pub fn bits(&self) -> &[u8]
        ensures bits { result.now ≡ view_bytes self.now }
        ensures fits { (p : Point) → IsIn p (whole (view_size self.now)) →
            value_of_point (view_size self.now) (view_values self.now) p < 2 ^ bits_of (view_format self.now) }
    {
        self.bits
    }

    /// The signed distance in bytes from a row to the next one below.
    pub fn delta(&self) -> i64
        ensures { result ≡ delta_of (view_layout self.now) }
    {
        self.layout.delta()
    }

    /// The byte at which the top row begins.
    pub fn scan0(&self) -> usize
        ensures { result ≡ row_start (view_layout self.now) 0 }
    {
        self.layout.row_start(0)
    }

    /// The byte at which a column of a row begins, or in which it lies.
    pub(crate) fn place(&self, x: usize, y: u32) -> usize
        requires column { x ≤ (view_size self.now).w }
        requires row { y < (view_size self.now).h }
        ensures { result ≡ row_start (view_layout self.now) y + x * bits_of (view_format self.now) / 8 }
    {
        self.layout.row_start(y) + x * self.layout.format.bits() as usize / 8
    }

    /// Copies so many pixels that are whole bytes to those that begin at a byte.
    pub(crate) fn copy_part(&self, x: usize, y: u32, count: usize, bits: &mut [u8], at: usize)
        requires columns { x + count ≤ (view_size self.now).w }
        requires row { y < (view_size self.now).h }
        requires start { x * bits_of (view_format self.now) % 8 ≡ 0 }
        requires whole { count * bits_of (view_format self.now) % 8 ≡ 0 }
        requires room { at + row_bytes (view_format self.now) count ≤ length bits.old }
        ensures values { (k : ℕ) → k < count → pixel_in (view_format self.now) bits.new at k ≡ value_at (view_size self.now) (view_values self.now) (x + k) y }
        ensures bytes { ChangesOnly at (at + row_bytes (view_format self.now) count) bits.old bits.new }
    {
        let first = self.place(x, y);
        let len = count * self.layout.format.bits() as usize / 8;
        copy_bytes(bits, at, self.bits, first, len);
    }

    /// The value at a column of a row.
    pub(crate) fn pixel(&self, x: u32, y: u32) -> u32
        requires column { x < (view_size self.now).w }
        requires row { y < (view_size self.now).h }
        ensures value { result ≡ value_at (view_size self.now) (view_values self.now) x y }
        ensures fits { result < 2 ^ bits_of (view_format self.now) }
    {
        get_value(
            self.bits,
            self.layout.row_start(y),
            self.layout.format,
            x as usize,
        )
    }

    /// The value at a point.
    pub fn get(&self, p: Point) -> u32
        requires { IsIn p (whole (view_size self.now)) }
        ensures value { result ≡ value_of_point (view_size self.now) (view_values self.now) p }
        ensures fits { result < 2 ^ bits_of (view_format self.now) }
    {
        self.pixel(coordinate(p.x), coordinate(p.y))
    }

    /// Reads the values of a run from a column of a row on.
    fn read_run(&self, x: u32, y: u32, out: &mut [u32])
        requires columns { x + length out.old ≤ (view_size self.now).w }
        requires row { y < (view_size self.now).h }
        ensures values { EachIndex out.new (λ k. slice_index out.new k ≡ value_at (view_size self.now) (view_values self.now) (x + k) y) }
        ensures fits { All (λ v. v < 2 ^ bits_of (view_format self.now)) out.new }
    {
        let (from, to) = whole_part(self.layout.format, x, out.len());
        let len = out.len();
        self.read_each(x, y, out, 0, from);
        self.read_whole(x, y, out, from, to);
        self.read_each(x, y, out, to, len);
    }

    /// Reads a part of a run pixel by pixel.
    fn read_each(&self, x: u32, y: u32, out: &mut [u32], from: usize, to: usize)
        requires order { from ≤ to }
        requires within { to ≤ length out.old }
        requires columns { x + length out.old ≤ (view_size self.now).w }
        requires row { y < (view_size self.now).h }
        ensures values { (k : ℕ) → from ≤ k → k < to → slice_index out.new k ≡ value_at (view_size self.now) (view_values self.now) (x + k) y }
        ensures fits { (k : ℕ) → from ≤ k → k < to → slice_index out.new k < 2 ^ bits_of (view_format self.now) }
        ensures others { (k : ℕ) → (k < from) ⊎ (to ≤ k) → slice_index out.new k ≡ slice_index out.old k }
    {
        for i in from..to {
            out[i] = self.pixel(x + i as u32, y);
        }
    }

    /// Reads the part of a run that is whole bytes.
    fn read_whole(&self, x: u32, y: u32, out: &mut [u32], from: usize, to: usize)
        requires order { from ≤ to }
        requires within { to ≤ length out.old }
        requires columns { x + length out.old ≤ (view_size self.now).w }
        requires row { y < (view_size self.now).h }
        requires start { from < to → (x + from) * bits_of (view_format self.now) % 8 ≡ 0 }
        requires count { (to - from) * bits_of (view_format self.now) % 8 ≡ 0 }
        ensures values { (k : ℕ) → from ≤ k → k < to → slice_index out.new k ≡ value_at (view_size self.now) (view_values self.now) (x + k) y }
        ensures fits { (k : ℕ) → from ≤ k → k < to → slice_index out.new k < 2 ^ bits_of (view_format self.now) }
        ensures others { (k : ℕ) → (k < from) ⊎ (to ≤ k) → slice_index out.new k ≡ slice_index out.old k }
    {
        if from == to {
            return;
        }
        let at = self.place(x as usize + from, y);
        read_values(self.bits, at, self.layout.format, &mut out[from..to]);
    }

    /// Reads the values of a run from a point on.
    pub fn read_row(&self, at: Point, out: &mut [u32])
        requires { LiesIn (run_of at (length out.old)) (view_size self.now) }
        ensures values { EachIndex out.new (λ k. slice_index out.new k
            ≡ value_of_point (view_size self.now) (view_values self.now) (record { x = at.x +ℤ pos k; y = at.y })) }
        ensures fits { All (λ v. v < 2 ^ bits_of (view_format self.now)) out.new }
    {
        self.read_run(coordinate(at.x), coordinate(at.y), out);
    }
}
