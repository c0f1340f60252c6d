//! What stands beside a bitmap that is drawn on.

ghost use Rattle.std.specs.Prelude.{◌≡◌, length};
ghost use Rattle.std.specs.Option.{option_copied};
ghost use Rattle.brush_obj.specs.declared.face.BrushFace.TheVariants as faces;
ghost use Rattle.script_orders.specs.Asked.{MaskIsOther};
ghost use Rattle.geom_base.specs.declared.target.Target.{Target};
ghost use Rattle.surf_obj.specs.Surface.{Surface};
ghost use Rattle.desk_span.specs.Desk.{State, face_of, mask_surface};
ghost use Rattle.desk_span.specs.InnerBeside.{IsBeside, IsNoRow, WasMade, is_own, plain_colour, stand_of, source_surface};
ghost use Rattle.desk_span.specs.InnerDrawing.{held_for, source_held};

use crate::canvas::Canvas;
use crate::lent::{lent_bitmap, mask_bitmap};
use crate::pane::Pane;
use crate::place::ORIGIN;
use crate::sight::Sight;
use brush_obj::BrushObj;
use geom_base::Point;
use pix_format::Rgb;
use script_orders::{BrushUse, Feed, Spot};

/// What a drawing on a bitmap may draw with: what is seen of the screen, the other bitmaps, and the brushes.
#[derive(Clone, Copy)]
pub struct Others<'a> {
    pub sight: &'a Sight,
    /// The bitmaps by their numbers; none in the place of the one that is drawn on.
    pub bitmaps: &'a [Option<Canvas>],
    pub brushes: &'a [BrushObj],
}

impl<'a> Others<'a> {
    /// The surface that a drawing takes its source from, where that isn't the one that is drawn on.
    pub fn source(self, spot: Spot, feed: &Feed) -> Option<&'a Pane>
        ensures { (s : State) (t : Surface) (target : Target) → IsBeside s spot t self.entry.sight.now self.entry.bitmaps.now self.entry.brushes.now → IsNoRow feed.now →
            source_held (option_copied result) (held_for (is_own spot feed.now) target) t ≡ source_surface s t feed.now }
    {
        match feed {
            Feed::Desk => self.sight.part(),
            feed => lent_bitmap(self.bitmaps, spot, feed),
        }
    }

    /// The point at which the source of a drawing stands.
    pub fn stand_of(self, feed: &Feed) -> Point
        ensures { result ≡ stand_of self.entry.sight.now.at feed.now }
    {
        match feed {
            Feed::Desk => self.sight.at,
            _ => ORIGIN,
        }
    }

    /// The mask of a drawing.
    pub fn mask(self, mask: Option<u32>) -> Option<&'a Pane>
        ensures { (s : State) (spot : Spot) (t : Surface) → IsBeside s spot t self.entry.sight.now self.entry.bitmaps.now self.entry.brushes.now → MaskIsOther spot mask → option_copied result ≡ mask_surface s mask }
    {
        mask_bitmap(self.bitmaps, mask)
    }

    /// The brush of a drawing; `plain` where it isn't one that was made.
    pub fn brush(self, with: BrushUse, plain: &'a BrushObj) -> &'a BrushObj
        requires plain { plain.now.face ≡ faces.Solid (plain_colour with) }
        requires made { WasMade (length self.brushes.now) with }
        ensures { (s : State) (spot : Spot) (t : Surface) → IsBeside s spot t self.entry.sight.now self.entry.bitmaps.now self.entry.brushes.now → result.now.face ≡ face_of s with }
    {
        match with {
            BrushUse::Made(number) => &self.brushes[number as usize],
            _ => plain,
        }
    }
}

/// What is drawn on is the drawing's source.
pub fn is_own(spot: Spot, feed: &Feed) -> bool
    ensures { result ≡ is_own spot feed.now }
{
    match feed {
        Feed::Desk => spot == Spot::Desk,
        Feed::Bitmap(number) => spot == Spot::Bitmap(*number),
        _ => false,
    }
}

/// The colour of what isn't there.
pub const BLACK: Rgb = Rgb { r: 0, g: 0, b: 0 };

/// The colour of a brush that isn't one that was made.
pub fn plain_colour(with: BrushUse) -> Rgb
    ensures { result ≡ plain_colour with }
{
    match with {
        BrushUse::Colour(colour) => colour,
        _ => BLACK,
    }
}
