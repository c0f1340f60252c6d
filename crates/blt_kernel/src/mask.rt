//! Masks.

ghost use Rattle.std.specs.Prelude.{◌≡◌, ◌+◌, ◌↔◌, IsTrue, None, EachIndex, length, slice_index};
ghost use Rattle.rop_mix.specs.Needs.{mask_needed};
ghost use Rattle.surf_obj.specs.View.{view_values, view_size};
ghost use Rattle.geom_base.specs.Points.{point_at};
ghost use Rattle.blt_kernel.specs.InnerShift.{Reaches, value_shifted};
ghost use Rattle.blt_kernel.specs.InnerHanded.{mask_given};

use crate::shift::Shift;
use geom_base::Point;
use rop_mix::{Rop4, needs_mask};
use surf_obj::LentView;

/// The bits that choose between the two codes of a raster operation.
#[derive(Clone, Copy)]
pub struct Mask<'a> {
    pub view: &'a LentView<'a>,
    pub shift: Shift,
}

impl Mask<'_> {
    /// Reads the mask's bits for a run of the target.
    pub fn read_run(&self, x: u32, y: u32, out: &mut [u32])
        requires { Reaches self.now.shift (view_size self.now.view.now) x y (x + length out.old) (y + 1) }
        ensures { EachIndex out.new (λ k. slice_index out.new k ≡
            value_shifted self.now.shift (view_size self.now.view.now) (view_values self.now.view.now) (point_at (x + k) y)) }
    {
        let x = self.shift.column(x);
        let y = self.shift.row(y);
        self.view.read_row(Point::at(x, y), out);
    }
}

/// Whether a raster operation needs a mask, and none is lent.
pub fn lacks_mask(rop: Rop4, lent: Option<&LentView<'_>>) -> bool
    ensures { IsTrue result ↔ (IsTrue (mask_needed rop.code) × (lent.entry ≡ None)) }
{
    lent.is_none() && needs_mask(rop)
}

/// The mask of a raster operation, or none where it needs none.
pub fn mask_for<'a>(rop: Rop4, lent: Option<&'a LentView<'a>>, shift: Shift) -> Option<Mask<'a>>
    ensures { result ≡ mask_given (mask_needed rop.code) lent.entry shift }
{
    if !needs_mask(rop) {
        return None;
    }
    let view = lent?;
    Some(Mask { view, shift })
}
