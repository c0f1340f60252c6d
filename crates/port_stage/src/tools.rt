//! What calls are drawn with.

ghost use Rattle.std.specs.Prelude.{◌≡◌, IfOk};
ghost use Rattle.geom_base.specs.Points.{HasSides};
ghost use Rattle.pix_format.specs.Standard.{standard_colours};
ghost use Rattle.mem_port.specs.Memory.{surface_in};

use crate::picture::SOURCE;
use brush_obj::{BrushObj, Hatch};
use geom_base::Size;
use mem_port::MemSurf;
use pix_format::{ColourTable, Format, Rgb, XlateObj};
use std::alloc::{AllocError, Global};

/// The colour of the solid brush, and of the hatch where it has no line.
pub const WHITE: Rgb = Rgb {
    r: 0xff,
    g: 0xff,
    b: 0xff,
};

/// The colour of the hatch's lines.
pub const RED: Rgb = Rgb {
    r: 0xff,
    g: 0,
    b: 0,
};

/// What calls on targets of a size and a format are drawn with: a source of that size that is lent, a solid brush and a hatch, the
/// targets' colours, and the translations to the targets from the source and from one another.
#[derive(Drop)]
pub struct Tools {
    pub size: Size,
    pub format: Format,
    pub source: MemSurf,
    pub solid: BrushObj,
    pub hatch: BrushObj,
    pub table: ColourTable,
    pub lent: XlateObj,
    pub held: XlateObj,
    ghost sides: { HasSides size },
    ghost colours: { table ≡ standard_colours format },
    ghost lent_from: { lent.from ≡ (surface_in source).format },
    ghost lent_to: { lent.to ≡ format },
    ghost held_from: { held.from ≡ format },
    ghost held_to: { held.to ≡ format },
}

impl Tools {
    /// These, for targets with the colours that their values have where none are given, and a source of another format or the same.
    ///
    /// # Errors
    ///
    /// `AllocError` for want of memory.
    pub fn new(alloc: Global, size: Size, from: Format, format: Format) -> Result<Tools, AllocError>
        requires sides { HasSides size }
        ensures size { IfOk result (λ t. t.size ≡ size) }
        ensures format { IfOk result (λ t. t.format ≡ format) }
    {
        let table = ColourTable::standard(alloc, format)?;
        let colours = ColourTable::standard(alloc, from)?;
        Ok(Tools {
            size,
            format,
            source: SOURCE.surface(alloc, size, from)?,
            solid: BrushObj::solid(alloc, WHITE),
            hatch: BrushObj::hatch(alloc, Hatch::DiagCross, RED, WHITE),
            lent: XlateObj::build(alloc, from, &colours, format, &table, WHITE)?,
            held: XlateObj::build(alloc, format, &table, format, &table, WHITE)?,
            table,
        })
    }

    /// The hatch, or the solid brush.
    pub(crate) fn brush(&self, hatched: bool) -> &BrushObj {
        if hatched { &self.hatch } else { &self.solid }
    }
}
