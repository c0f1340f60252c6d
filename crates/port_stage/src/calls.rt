//! The calls.

ghost use Rattle.std.specs.Prelude.{◌≡◌, ◌*◌, ◌≤◌, IfOk, None, length};
ghost use Rattle.geom_base.specs.declared.target.Target.TheVariants.{Screen};
ghost use Rattle.geom_base.specs.Points.{HasSides, point_at, whole};
ghost use Rattle.copy_port.specs.Given.{IsPoint};
ghost use Rattle.port_stage.specs.Stage.{IsStage};

use crate::stage::Stage;
use crate::tools::Tools;
use brush_obj::{BltCall, CopyCall, PaintCall};
use clip_obj::ClipObj;
use eng_calls::{eng_bit_blt_managed, eng_copy_bits_managed, eng_paint_managed};
use geom_base::{DrawnList, Point, PortAnswer, Size, Target};
use mem_port::MemPort;
use pix_format::Format;
use rop_mix::{Mix, Rop4};
use std::alloc::{AllocError, Global};
use surf_obj::{Layout, LentView};

/// A mask that allows the pixels whose coordinates have an even sum.
const MASK: [u8; 8] = [0xaa, 0x55, 0xaa, 0x55, 0xaa, 0x55, 0xaa, 0x55];

const MASK_SIZE: Size = Size { w: 8, h: 8 };

const ZERO: Point = Point { x: 0, y: 0 };

/// From where sources are taken, seen from the point that gets the value: from rectangles that are written before.
pub const FROM: Point = Point { x: -1, y: -2 };

/// Where the mask is set, pattern or old value but not both; else the old value where the source is set, and the pattern where not.
pub const MASKED: u16 = 0xb85a;

/// The old value where the source is set, and the pattern where not.
pub const MIXED: u16 = 0xb8b8;

/// The calls that are drawn: some of each class, with each place of a source.
#[derive(Clone, Copy, Debug, PartialEq, Eq)]
pub enum Kind {
    /// A paint in white.
    Paint,
    /// A paint of pattern or old value but not both, with a hatch.
    Hatch,
    /// A copy of a source that is lent, a point right and two down, so that some points get none.
    Copy,
    /// A copy of a source that is lent, point for point.
    Whole,
    /// A copy of the screen itself, a point right and two down.
    Overlap,
    /// A copy of the bitmap, a point right and two down.
    Across,
    /// A raster operation on a source that is lent, in white and under a mask.
    Masked,
    /// A raster operation on a source that is lent, with a hatch.
    Mixed,
}

/// What a call left: the rectangles that were pushed, and the answer.
#[derive(Drop)]
pub struct Drawing {
    pub drawn: DrawnList,
    pub answer: PortAnswer,
}

/// A paint of a whole screen.
pub fn paint_call(size: Size, mix: Mix) -> PaintCall
    requires sides { HasSides size }
    ensures { result ≡ record { target = Screen; rect = whole size; origin = point_at 0 0; mix = mix } }
{
    PaintCall {
        target: Target::Screen,
        rect: size.whole(),
        origin: ZERO,
        mix,
    }
}

/// A copy over a whole screen.
pub fn copy_call(size: Size, held: Option<Target>, src: Point) -> CopyCall
    requires sides { HasSides size }
    ensures { result ≡ record { target = Screen; rect = whole size; held = held; src = src } }
{
    CopyCall {
        target: Target::Screen,
        rect: size.whole(),
        held,
        src,
    }
}

/// A raster operation over a whole screen, on a source that is lent.
pub fn blt_call(size: Size, src: Point, code: u16) -> BltCall
    requires sides { HasSides size }
    ensures { result ≡ record {
      target = Screen;
      rect = whole size;
      held = None;
      src = src;
      mask = point_at 0 0;
      origin = point_at 0 0;
      rop = record { code = code };
    } }
{
    BltCall {
        target: Target::Screen,
        rect: size.whole(),
        held: None,
        src,
        mask: ZERO,
        origin: ZERO,
        rop: Rop4::of(code),
    }
}

impl Stage {
    /// Draws a call on the screen, in the clip.
    ///
    /// # Errors
    ///
    /// `AllocError` for want of memory for the list of what is pushed; then nothing was drawn.
    pub fn draw(&mut self, alloc: Global, kind: Kind) -> Result<Drawing, AllocError> {
        let mut drawn = room_for(alloc, &self.clip)?;
        let answer = draw_on(
            alloc,
            kind,
            &mut self.port,
            &self.tools,
            &mut self.clip,
            &mut drawn,
        );
        Ok(Drawing { drawn, answer })
    }
}

/// A list with room for three parts of each rectangle of a clip.
fn room_for(alloc: Global, clip: &ClipObj) -> Result<DrawnList, AllocError>
    ensures { IfOk result (λ d. 3 * length clip.now.rects ≤ d.spare) }
{
    let mut drawn = DrawnList::new(alloc);
    match clip.count().checked_mul(3) {
        Some(entries) => drawn.reserve(entries)?,
        None => return Err(AllocError),
    }
    Ok(drawn)
}

/// Draws a call on a screen, in a clip of it.
fn draw_on(
    alloc: Global,
    kind: Kind,
    port: &mut MemPort,
    tools: &Tools,
    clip: &mut ClipObj,
    drawn: &mut DrawnList,
) -> PortAnswer
    requires targets { IsStage tools.now.size tools.now.format port.old }
    requires bounds { clip.old.bounds ≡ whole tools.now.size }
    requires spare { 3 * length clip.old.rects ≤ drawn.old.spare }
    ensures targets { IsStage tools.now.size tools.now.format port.new }
    ensures bounds { clip.new.bounds ≡ whole tools.now.size }
{
    match kind {
        Kind::Paint => paint(alloc, 13, false, port, tools, clip, drawn),
        Kind::Hatch => paint(alloc, 7, true, port, tools, clip, drawn),
        Kind::Copy => copy(alloc, FROM, port, tools, clip, drawn),
        Kind::Whole => copy(alloc, ZERO, port, tools, clip, drawn),
        Kind::Overlap => shift(alloc, true, port, tools, clip, drawn),
        Kind::Across => shift(alloc, false, port, tools, clip, drawn),
        Kind::Masked => blt(alloc, MASKED, false, port, tools, clip, drawn),
        Kind::Mixed => blt(alloc, MIXED, true, port, tools, clip, drawn),
    }
}

fn paint(
    alloc: Global,
    mix: u8,
    hatched: bool,
    port: &mut MemPort,
    tools: &Tools,
    clip: &mut ClipObj,
    drawn: &mut DrawnList,
) -> PortAnswer
    requires targets { IsStage tools.now.size tools.now.format port.old }
    requires bounds { clip.old.bounds ≡ whole tools.now.size }
    requires spare { 3 * length clip.old.rects ≤ drawn.old.spare }
    ensures targets { IsStage tools.now.size tools.now.format port.new }
    ensures bounds { clip.new.bounds ≡ whole tools.now.size }
{
    let mix = match Mix::of(mix) {
        Some(mix) => mix,
        None => return PortAnswer::NoMemory,
    };
    let call = paint_call(tools.size, mix);
    let brush = tools.brush(hatched);
    eng_paint_managed(alloc, port, &call, &tools.table, brush, clip, drawn)
}

/// A copy of the source that is lent, from a point of it.
fn copy(
    alloc: Global,
    src: Point,
    port: &mut MemPort,
    tools: &Tools,
    clip: &mut ClipObj,
    drawn: &mut DrawnList,
) -> PortAnswer
    requires point { IsPoint src }
    requires targets { IsStage tools.now.size tools.now.format port.old }
    requires bounds { clip.old.bounds ≡ whole tools.now.size }
    requires spare { 3 * length clip.old.rects ≤ drawn.old.spare }
    ensures targets { IsStage tools.now.size tools.now.format port.new }
    ensures bounds { clip.new.bounds ≡ whole tools.now.size }
{
    let call = copy_call(tools.size, None, src);
    let source = tools.source.view();
    eng_copy_bits_managed(
        alloc,
        port,
        &call,
        Some(&source),
        &tools.lent,
        &tools.table,
        clip,
        drawn,
    )
}

/// A copy of a target that is held: of the screen itself, or of the bitmap.
fn shift(
    alloc: Global,
    overlaps: bool,
    port: &mut MemPort,
    tools: &Tools,
    clip: &mut ClipObj,
    drawn: &mut DrawnList,
) -> PortAnswer
    requires targets { IsStage tools.now.size tools.now.format port.old }
    requires bounds { clip.old.bounds ≡ whole tools.now.size }
    requires spare { 3 * length clip.old.rects ≤ drawn.old.spare }
    ensures targets { IsStage tools.now.size tools.now.format port.new }
    ensures bounds { clip.new.bounds ≡ whole tools.now.size }
{
    let held = if overlaps {
        Target::Screen
    } else {
        Target::Bitmap(1)
    };
    let call = copy_call(tools.size, Some(held), FROM);
    eng_copy_bits_managed(
        alloc,
        port,
        &call,
        None,
        &tools.held,
        &tools.table,
        clip,
        drawn,
    )
}

/// A raster operation on the source that is lent.
fn blt(
    alloc: Global,
    code: u16,
    hatched: bool,
    port: &mut MemPort,
    tools: &Tools,
    clip: &mut ClipObj,
    drawn: &mut DrawnList,
) -> PortAnswer
    requires targets { IsStage tools.now.size tools.now.format port.old }
    requires bounds { clip.old.bounds ≡ whole tools.now.size }
    requires spare { 3 * length clip.old.rects ≤ drawn.old.spare }
    ensures targets { IsStage tools.now.size tools.now.format port.new }
    ensures bounds { clip.new.bounds ≡ whole tools.now.size }
{
    let call = blt_call(tools.size, FROM, code);
    let brush = tools.brush(hatched);
    let mask = LentView::on(&MASK, Layout::new(MASK_SIZE, Format::B1, 1, false));
    let source = tools.source.view();
    eng_bit_blt_managed(
        alloc,
        port,
        &call,
        Some(&source),
        Some(&mask),
        &tools.lent,
        &tools.table,
        brush,
        clip,
        drawn,
    )
}
