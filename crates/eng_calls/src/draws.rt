//! Calls that are drawn in one rectangle after another.

ghost use Rattle.std.specs.Prelude.{◌≡◌, All};
ghost use Rattle.std.specs.List.{AllPairs};
ghost use Rattle.geom_base.specs.declared.size.Size.{Size};
ghost use Rattle.geom_base.specs.Points.{is_in, LiesIn};
ghost use Rattle.pix_format.specs.declared.format.Format.{Format};
ghost use Rattle.surf_obj.specs.Lent.{values_of, size_of, format_of, OnlyPixels};
ghost use Rattle.geom_base.specs.Step.{redrawn};
ghost use Rattle.clip_obj.specs.Order.{ordered, ComesBefore};
ghost use Rattle.eng_calls.specs.Steps.{Rule, step_by_step, StepsAreOne};

use clip_obj::{ClipObj, Direction};
use geom_base::{NO_RECT, Rect};
use surf_obj::LentSurf;

/// The rectangles that are handed out at once.
const BATCH: usize = 16;

/// A call on one surface.
pub trait DrawsRect {
    /// it can be drawn on surfaces of a format
    ghost fits: { Self → Format → Type 0 };

    /// what it gives on a surface of a size and a format, from the values that it finds
    ghost gives: { Self → Size → Format → Rule };

    /// Draws the call's part in a rectangle.
    fn draw(&self, dst: &mut LentSurf<'_>, rect: &Rect)
        requires fits { fits self.now (format_of dst.old) }
        requires inside { LiesIn rect.now (size_of dst.old) }
        ensures values { let new = gives self.now (size_of dst.old) (format_of dst.old) (values_of dst.old) in
            values_of dst.new ≡ redrawn (size_of dst.old) (values_of dst.old) (λ p. is_in p rect.now) new }
        ensures only { OnlyPixels dst.old dst.new };
}

/// Draws a call in one rectangle after the other.
fn draw_rects<D: DrawsRect>(call: &D, dst: &mut LentSurf<'_>, rects: &[Rect])
    requires fits { D.fits call.now (format_of dst.old) }
    requires inside { All (λ r. LiesIn r (size_of dst.old)) rects.now }
    ensures values { let rule = D.gives call.now (size_of dst.old) (format_of dst.old) in
        values_of dst.new ≡ step_by_step (size_of dst.old) rule rects.now (values_of dst.old) }
    ensures only { OnlyPixels dst.old dst.new }
{
    for i in 0..rects.len() {
        call.draw(dst, &rects[i]);
    }
}

/// Draws a call in the rectangles of a clip, in the order of a direction.
pub fn draw_clip<D: DrawsRect>(
    call: &D,
    dst: &mut LentSurf<'_>,
    clip: &mut ClipObj,
    direction: Direction,
)
    requires fits { D.fits call.now (format_of dst.old) }
    requires inside { All (λ r. LiesIn r (size_of dst.old)) clip.old.rects }
    ensures values { let rule = D.gives call.now (size_of dst.old) (format_of dst.old) in
        values_of dst.new ≡ step_by_step (size_of dst.old) rule (ordered direction clip.old.rects) (values_of dst.old) }
    ensures only { OnlyPixels dst.old dst.new }
    ensures order { AllPairs (ComesBefore direction) (ordered direction clip.old.rects) }
    ensures rects { clip.new.rects ≡ clip.old.rects }
    ensures bounds { clip.new.bounds ≡ clip.old.bounds }
{
    clip.enum_start(direction);
    let mut batch = [NO_RECT; BATCH];
    loop {
        let (len, more) = clip.next_batch(&mut batch);
        draw_rects(call, dst, &batch[..len]);
        if !more {
            return;
        }
    }
}

/// Drawing in rectangles one after the other, of which no later one is given anything else for what was drawn before, is one step
/// over all of them.
pub fn steps_are_one()
    ensures { StepsAreOne }
{}
