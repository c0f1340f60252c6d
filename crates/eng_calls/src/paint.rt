//! Paints.

ghost use Rattle.std.specs.Prelude.{◌≡◌, All, length};
ghost use Rattle.geom_base.specs.Points.{is_in_some, LiesIn};
ghost use Rattle.pix_format.specs.Value.{colours_of};
ghost use Rattle.surf_obj.specs.Lent.{values_of, size_of, format_of, OnlyPixels};
ghost use Rattle.geom_base.specs.Step.{redrawn};
ghost use Rattle.brush_obj.specs.Brush.{tiled};
ghost use Rattle.brush_obj.specs.Calls.{new_of_paint, paint_operands};
ghost use Rattle.brush_obj.specs.Ink.{InkFits, ink_at};

use crate::draws::{DrawsRect, draw_clip};
use blt_kernel::paint_inked;
use brush_obj::{BrushObj, Ink, MOST_VALUES, PaintCall};
use clip_obj::{ClipObj, Direction};
use geom_base::Rect;
use pix_format::ColourTable;
use surf_obj::LentSurf;

/// A paint with what it draws with.
#[derive(Drop)]
struct Painting<'a> {
    call: &'a PaintCall,
    ink: Ink<'a>,
}

impl DrawsRect for Painting<'_> {
    ghost use Rattle.eng_calls.specs.InnerGives.{PaintFits, PaintGives};

    ghost fits = { λ k format. PaintFits k format };

    ghost gives = { λ k size format. PaintGives k size format };

    fn draw(&self, dst: &mut LentSurf<'_>, rect: &Rect) {
        paint_inked(dst, *rect, self.call, self.ink);
    }
}

/// Draws a paint in the rectangles of a clip that lies in the target. `table` is the target's.
pub fn eng_paint(
    dst: &mut LentSurf<'_>,
    call: &PaintCall,
    table: &ColourTable,
    brush: &BrushObj,
    clip: &mut ClipObj,
)
    requires inside { All (λ r. LiesIn r (size_of dst.old)) clip.old.rects }
    requires table { length table.now ≡ colours_of (format_of dst.old) }
    ensures values { let o = paint_operands (tiled brush.now.face (format_of dst.old) table.now) (format_of dst.old) in
        values_of dst.new ≡ redrawn (size_of dst.old) (values_of dst.old) (λ p. is_in_some p clip.old.rects) (new_of_paint call.now o) }
    ensures only { OnlyPixels dst.old dst.new }
    ensures rects { clip.new.rects ≡ clip.old.rects }
    ensures bounds { clip.new.bounds ≡ clip.old.bounds }
{
    match Ink::ready(brush.face(), dst.format(), table) {
        Some(ink) => paint_clip(dst, call, ink, clip),
        None => {
            let mut room = [0; MOST_VALUES];
            let ink = Ink::made(brush.face(), dst.format(), table, &mut room);
            paint_clip(dst, call, ink, clip);
        }
    }
}

/// The same by an ink that was made for the target.
fn paint_clip(dst: &mut LentSurf<'_>, call: &PaintCall, ink: Ink<'_>, clip: &mut ClipObj)
    requires inside { All (λ r. LiesIn r (size_of dst.old)) clip.old.rects }
    requires ink { InkFits ink (format_of dst.old) }
    ensures values { let o = paint_operands (ink_at ink.entry) (format_of dst.old) in
        values_of dst.new ≡ redrawn (size_of dst.old) (values_of dst.old) (λ p. is_in_some p clip.old.rects) (new_of_paint call.now o) }
    ensures only { OnlyPixels dst.old dst.new }
    ensures rects { clip.new.rects ≡ clip.old.rects }
    ensures bounds { clip.new.bounds ≡ clip.old.bounds }
{
    let painting = Painting { call, ink };
    draw_clip(&painting, dst, clip, Direction::Any);
}
