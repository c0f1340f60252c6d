//! Brushes.

ghost use Rattle.std.specs.Prelude.{◌≡◌, ◌≤◌, ◌<◌, ◌*◌, ◌^◌, All, IfOk, IfErr, IfSome, IsTrue, None, OnErr, OnOk, [], is_some, length, option_copied};
ghost use Rattle.geom_base.specs.declared.point.Point.{Point};
ghost use Rattle.pix_format.specs.Value.{bits_of, colours_of};
ghost use Rattle.brush_obj.specs.Realised.{IsReadyFor, HasAllValues};

use crate::face::BrushFace;
use crate::hatch::Hatch;
use crate::pattern::Pattern;
use crate::rbrush::RBrush;
use crate::refusal::BrushRefusal;
use crate::slot::{Slot, fill, find_place, make_place};
use geom_base::{Point, Size};
use pix_format::{ColourTable, Format, Rgb};
use std::alloc::{AllocError, Global};
use std::marker::Model;

/// The most pixels of a side of a pattern.
pub const MOST_PATTERN_SIDE: u32 = 64;

/// A brush, with slots in which drivers keep its realised forms.
#[derive(Drop)]
pub struct BrushObj {
    face: BrushFace,
    slots: Vec<Slot>,
}

impl Model for BrushObj {
    ghost use Rattle.brush_obj.specs.Slots.{Brush};

    ghost Value = { Brush };

    ghost view = { λ b. record { face = b.face; slots = b.slots.items } };
}

impl BrushObj {
    ghost use Rattle.brush_obj.specs.Brush.{brush_value, is_solid, size_of, tiled};
    ghost use Rattle.brush_obj.specs.Image.{HasPatternSides, IsImage};
    ghost use Rattle.brush_obj.specs.Refusals.{Refuses};
    ghost use Rattle.brush_obj.specs.Slots.{OnlySlot, has_place, kept};

    /// A brush of one colour.
    pub fn solid(alloc: Global, colour: Rgb) -> BrushObj
        ensures { result ≡ record { face = BrushFace.Solid colour; slots = [] } }
    {
        BrushObj::of(alloc, BrushFace::Solid(colour))
    }

    /// A hatch, its lines in the colour `fore`.
    pub fn hatch(alloc: Global, kind: Hatch, fore: Rgb, back: Rgb) -> BrushObj
        ensures { result ≡ record { face = BrushFace.Hatch kind fore back; slots = [] } }
    {
        BrushObj::of(alloc, BrushFace::Hatch { kind, fore, back })
    }

    /// A pattern of these values, row by row, of a surface of this format and table, with the background colour in force.
    ///
    /// # Errors
    ///
    /// `TooLarge` exactly where a side has over `MOST_PATTERN_SIDE` pixels, else `NoMemory` for want of memory.
    pub fn pattern(
        alloc: Global,
        size: Size,
        format: Format,
        table: &ColourTable,
        values: &[u32],
        back: Rgb,
    ) -> Result<BrushObj, BrushRefusal>
        requires width { 1 ≤ size.w }
        requires height { 1 ≤ size.h }
        requires whole { IsImage (record { size = size; format = format; table = table.now; values = values.now; back = back }) }
        ensures ok { IfOk result (λ b. b ≡
            record { face = BrushFace.Pattern (record { size = size; format = format; table = table.now; values = values.now; back = back }); slots = [] }) }
        ensures sides { OnOk result (HasPatternSides size) }
        ensures err { IfErr result (Refuses size) }
    {
        if size.w > MOST_PATTERN_SIDE || size.h > MOST_PATTERN_SIDE {
            return Err(BrushRefusal::TooLarge(size));
        }
        let table = ColourTable::of(alloc, table.colours())?;
        let values = Vec::from_slice(alloc, values)?;
        let pattern = Pattern::new(size, format, table, values, back);
        Ok(BrushObj::of(alloc, BrushFace::Pattern(pattern)))
    }

    /// A brush that looks like this, in which no driver has a place.
    fn of(alloc: Global, face: BrushFace) -> BrushObj
        ensures { result ≡ record { face = face; slots = [] } }
    {
        BrushObj {
            face,
            slots: Vec::new(alloc),
        }
    }

    /// What it looks like.
    pub fn face(&self) -> &BrushFace
        ensures { result.now ≡ self.now.face }
    {
        &self.face
    }

    /// The value at a point of a surface of this format and table.
    pub fn value_at(&self, format: Format, table: &ColourTable, origin: Point, p: Point) -> u32
        requires { length table.now ≡ colours_of format }
        ensures value { result ≡ brush_value self.now.face format table.now origin p }
        ensures fits { result < 2 ^ bits_of format }
    {
        self.face.value_at(format, table, origin, p)
    }

    /// The value that it has at every point, or `None` where it isn't solid.
    pub fn solid_value(&self, format: Format, table: &ColourTable) -> Option<u32>
        requires { length table.now ≡ colours_of format }
        ensures solid { is_some result ≡ is_solid self.now.face }
        ensures value { IfSome result (λ v. tiled self.now.face format table.now ≡ (λ q. v)) }
        ensures fits { IfSome result (λ v. v < 2 ^ bits_of format) }
    {
        self.face.solid_value(format, table)
    }

    /// Gives an owner an empty slot, and a realised brush to be filled for it: of the brush's size, without values, with room
    /// for all of them.
    ///
    /// # Errors
    ///
    /// `AllocError` for want of memory; the brush is unchanged then.
    pub fn slot(&mut self, alloc: Global, owner: u32) -> Result<RBrush, AllocError>
        ensures ready { IfOk result (IsReadyFor (size_of self.old.face)) }
        ensures place { OnOk result (IsTrue (has_place self.new owner)) }
        ensures empty { OnOk result (kept self.new owner ≡ None) }
        ensures others { OnOk result (OnlySlot owner self.old self.new) }
        ensures err { OnErr result (self.new ≡ self.old) }
    {
        let ready = RBrush::with_room(alloc, self.face.size())?;
        make_place(&mut self.slots, owner)?;
        Ok(ready)
    }

    /// Keeps a realised brush in its owner's slot.
    pub fn keep(&mut self, owner: u32, realised: RBrush)
        requires place { IsTrue (has_place self.old owner) }
        requires values { HasAllValues realised }
        ensures kept { kept self.new owner ≡ Some realised }
        ensures place { IsTrue (has_place self.new owner) }
        ensures others { OnlySlot owner self.old self.new }
    {
        fill(self.slots.as_mut_slice(), owner, Some(realised));
    }

    /// The realised brush that an owner keeps, or `None` where it keeps none.
    pub fn rbrush(&self, owner: u32) -> Option<&RBrush>
        ensures { option_copied result ≡ kept self.now owner }
    {
        let at = find_place(self.slots.as_slice(), owner)?;
        self.slots[at].realised.as_ref()
    }
}
