//! The lines that draw. They change nothing of what is kept from line to line.

ghost use Rattle.std.specs.Prelude.{◌≡◌, ◌≤◌, ◌≤ℤ◌, IfOk, length, map};
ghost use Rattle.script_words.specs.Bounds.{greatest_point};
ghost use Rattle.brush_obj.specs.declared.draw_call.DrawCall.TheVariants as calls;
ghost use Rattle.script_orders.specs.Rows.{row_end, row_rect};
ghost use Rattle.script_read.specs.Drawing.{blt_from, copy_from, paint_from};
ghost use Rattle.script_read.specs.InnerReading.{ReadsLine, state_of};
ghost use Rattle.script_read.specs.Commands.{read_blt, read_copy, read_paint, read_pixels};

use crate::operands::{
    feed_from, has_operands, is_mono_mask, is_other, needed_feed, needed_mask, number_of_mask,
};
use crate::reader::Reader;
use brush_obj::{BltCall, CopyCall, DrawCall, PaintCall};
use geom_base::{Point, Rect, Target};
use rop_mix::{Mix, Rop4, needs_mask, needs_source};
use script_names::{bitmap_or_none, brush, brush_or_none, mix, spot, spot_or_none, values};
use script_orders::{BrushUse, DeskCommand, Feed, ScriptCommand, Spot, Values};
use script_words::{ReadError, Refusal, hexadecimal, point, rect, well_ordered, word};
use std::alloc::Global;

/// A raster operation on a rectangle, whose points for its corner are `src` and `mask`.
fn blt_from(rect: Rect, src: Point, mask: Point, origin: Point, rop: Rop4) -> DrawCall
    ensures { result ≡ calls.Blt (blt_from rect src mask origin rop.code) }
{
    DrawCall::Blt(BltCall {
        target: Target::Screen,
        rect,
        held: None,
        src,
        mask,
        origin,
        rop,
    })
}

/// blt TARGET R SRC SX SY MASK MX MY BRUSH ROP4
#[tactic(auto, unfolding(crate::specs::Commands::read_blt))]
pub fn blt(reader: &Reader<'_>, words: &[&[u8]]) -> Result<ScriptCommand, ReadError>
    ensures value { ReadsLine result (state_of reader.now) (read_blt (state_of reader.now) (map (λ w. w.now) words.now)) }
{
    let target = spot(&reader.names, word(words, 1))?;
    let rect = rect(words, 2)?;
    let source = spot_or_none(&reader.names, word(words, 6))?;
    let src = point(words, 7)?;
    let mask = bitmap_or_none(&reader.names, word(words, 9))?;
    let at = point(words, 10)?;
    let with = brush_or_none(&reader.names, word(words, 12))?;
    let rop = Rop4::of(hexadecimal(word(words, 13), 4)? as u16);
    if !well_ordered(&rect) {
        return Err(ReadError::Refused(Refusal::NotOrdered));
    }
    if !has_operands(rop, source, mask, with) {
        return Err(ReadError::Refused(Refusal::OperandMissing));
    }
    let bits = needed_mask(needs_mask(rop), mask);
    if !is_mono_mask(bits) {
        return Err(ReadError::Refused(Refusal::MaskNotMono));
    }
    if !is_other(target, bits) {
        return Err(ReadError::Refused(Refusal::MaskIsTarget));
    }
    let clip = reader.shared_clip()?;
    Ok(ScriptCommand::Draw(DeskCommand {
        target,
        call: blt_from(rect, src, at, reader.origin, rop),
        source: needed_feed(needs_source(rop), source),
        mask: number_of_mask(bits),
        brush: with,
        clip,
        back: reader.back,
    }))
}

/// A copy of a source, whose point for the rectangle's corner is `src`.
fn copy_from(rect: Rect, src: Point) -> DrawCall
    ensures { result ≡ calls.Copy (copy_from rect src) }
{
    DrawCall::Copy(CopyCall {
        target: Target::Screen,
        rect,
        held: None,
        src,
    })
}

/// copy TARGET R SRC SX SY
#[tactic(auto, unfolding(crate::specs::Commands::read_copy))]
pub fn copy(reader: &Reader<'_>, words: &[&[u8]]) -> Result<ScriptCommand, ReadError>
    ensures value { ReadsLine result (state_of reader.now) (read_copy (state_of reader.now) (map (λ w. w.now) words.now)) }
{
    let target = spot(&reader.names, word(words, 1))?;
    let rect = rect(words, 2)?;
    let source = spot(&reader.names, word(words, 6))?;
    let src = point(words, 7)?;
    if !well_ordered(&rect) {
        return Err(ReadError::Refused(Refusal::NotOrdered));
    }
    let clip = reader.shared_clip()?;
    Ok(ScriptCommand::Draw(DeskCommand {
        target,
        call: copy_from(rect, src),
        source: feed_from(source),
        mask: None,
        brush: BrushUse::Nothing,
        clip,
        back: reader.back,
    }))
}

/// A rectangle painted with a brush that has this origin.
fn paint_from(rect: Rect, origin: Point, mix: Mix) -> DrawCall
    ensures { result ≡ calls.Paint (paint_from rect origin mix) }
{
    DrawCall::Paint(PaintCall {
        target: Target::Screen,
        rect,
        origin,
        mix,
    })
}

/// paint TARGET R BRUSH MIX
#[tactic(auto, unfolding(crate::specs::Commands::read_paint))]
pub fn paint(reader: &Reader<'_>, words: &[&[u8]]) -> Result<ScriptCommand, ReadError>
    ensures value { ReadsLine result (state_of reader.now) (read_paint (state_of reader.now) (map (λ w. w.now) words.now)) }
{
    let target = spot(&reader.names, word(words, 1))?;
    let rect = rect(words, 2)?;
    let with = brush(&reader.names, word(words, 6))?;
    let mix = mix(word(words, 7))?;
    if !well_ordered(&rect) {
        return Err(ReadError::Refused(Refusal::NotOrdered));
    }
    let clip = reader.shared_clip()?;
    Ok(ScriptCommand::Draw(DeskCommand {
        target,
        call: paint_from(rect, reader.origin, mix),
        source: Feed::Nothing,
        mask: None,
        brush: with,
        clip,
        back: reader.back,
    }))
}

/// pixels NAME X Y V ..
#[tactic(auto, unfolding(crate::specs::Commands::read_pixels))]
pub fn pixels(
    reader: &Reader<'_>,
    alloc: Global,
    words: &[&[u8]],
) -> Result<ScriptCommand, ReadError>
    requires { 4 ≤ length words.now }
    ensures value { ReadsLine result (state_of reader.now) (read_pixels (state_of reader.now) (map (λ w. w.now) words.now)) }
{
    let bitmap = reader.names.bitmap(word(words, 1))?;
    let at = point(words, 2)?;
    let row = values(alloc, bitmap.format, words, 4)?;
    let clip = reader.shared_clip()?;
    Ok(ScriptCommand::Draw(DeskCommand {
        target: Spot::Bitmap(bitmap.number),
        call: copy_from(row_rect(at, row.len()), Point { x: 0, y: 0 }),
        source: Feed::Row(Values::of(row)),
        mask: None,
        brush: BrushUse::Nothing,
        clip,
        back: reader.back,
    }))
}

/// The column behind so many from one on, but not past the greatest.
fn row_end(x: i32, count: usize) -> i32
    ensures { result ≡ row_end x count }
{
    let room = i64::from(i32::MAX) - i64::from(x);
    if count > room as usize {
        return i32::MAX;
    }
    (i64::from(x) + count as i64) as i32
}

/// So many points in a row from a point on.
fn row_rect(at: Point, count: usize) -> Rect
    requires { at.y ≤ℤ greatest_point }
    ensures { result ≡ row_rect at count }
{
    Rect {
        left: at.x,
        top: at.y,
        right: row_end(at.x, count),
        bottom: at.y + 1,
    }
}
