//! A drawing on one surface, beside the rest of the desk.

ghost use Rattle.std.specs.Prelude.{◌≡◌, ◌<◌, ◌≤◌, ◌*◌, ◌^◌, ◌↔◌, IsTrue, All, length, OnOk, OnErr};
ghost use Rattle.std.specs.Option.{option_copied};
ghost use Rattle.geom_base.specs.declared.point.Point.{Point};
ghost use Rattle.geom_base.specs.Points.{HasPoints, IsIn, is_in_some, LiesIn, moved, whole, most_side};
ghost use Rattle.pix_format.specs.Value.{bits_of};
ghost use Rattle.pix_format.specs.declared.rgb.Rgb.{Rgb};
ghost use Rattle.surf_obj.specs.Surface.{changed};
ghost use Rattle.brush_obj.specs.Calls.{PointMovesBack, new_of_call, new_of_copy, src_of};
ghost use Rattle.script_orders.specs.Asked.{MaskIsOther};
ghost use Rattle.script_orders.specs.Places.{MayStandAt};
ghost use Rattle.desk_span.specs.Desk.{State, area_of, new_of, operands_of};
ghost use Rattle.desk_span.specs.Meeting.{Reaches};
ghost use Rattle.desk_span.specs.InnerBeside.{CanBeSeen, DrawsOn, IsBeside, IsNoRow, WasMade, stand_of};
ghost use Rattle.desk_span.specs.InnerDrawing.{holding};
ghost use Rattle.desk_span.specs.InnerFrames.{LetsThrough};
ghost use Rattle.desk_span.specs.InnerRows.{CopiesRow, row_operands};

use crate::canvas::Canvas;
use crate::inputs::PaneInputs;
use crate::others::{BLACK, Others, is_own, plain_colour};
use crate::place::ORIGIN;
use brush_obj::{BltCall, BrushObj, CopyCall, DrawCall, calls_move};
use clip_obj::{ClipObj, origin_from};
use geom_base::{Point, Rect, distance};
use region::Region;
use script_orders::{DeskCommand, Feed, NamedRegion};
use std::alloc::{AllocError, Global};

/// The region of a clip, where there is one.
pub fn region_of(clip: &Option<NamedRegion>) -> Option<&Region>
    ensures { option_copied result ≡ clip.now }
{
    match clip {
        Some(named) => Some(named.region()),
        None => None,
    }
}

/// A clip lets a point of a frame through. Without a region it lets all through.
pub fn meets(clip: Option<&Region>, frame: &Rect) -> bool
    ensures { IsTrue result ↔ LetsThrough (option_copied clip.entry) frame.now }
{
    match clip {
        Some(region) => region.meets(frame),
        None => frame.has_points(),
    }
}

/// Carries out a drawing on a surface that stands at a point, beside the rest of the desk.
///
/// # Errors
///
/// `AllocError` for want of memory, where the call reaches a point of the surface in the clip; the surface is unchanged then.
pub fn draw_beside(
    alloc: Global,
    target: &mut Canvas,
    at: Point,
    others: Others<'_>,
    command: &DeskCommand,
) -> Result<(), AllocError>
    requires can { DrawsOn target.old command.now }
    requires made { WasMade (length others.brushes.now) command.now.brush }
    requires place { MayStandAt at }
    requires seen { CanBeSeen command.now.call at (stand_of others.sight.now.at command.now.source) }
    ensures ok { OnOk result ((s : State) → IsBeside s command.now.target target.old others.entry.sight.now others.entry.bitmaps.now others.entry.brushes.now →
        target.new ≡ changed (λ p. new_of s command.now target.old (moved p at)) (λ p. area_of command.now (moved p at)) target.old) }
    ensures err { OnErr result (target.new ≡ target.old) }
    ensures meets { OnErr result (Reaches (λ p. area_of command.now (moved p at)) target.old.size) }
{
    calls_move();
    let call = command.call.shifted(origin_from(&at));
    let frame = call.rect().cut_to(target.size());
    let asked = frame.shifted(at);
    let region = region_of(&command.clip);
    if !meets(region, &asked) {
        return Ok(());
    }
    let mut clip = ClipObj::build_at(alloc, region, asked, at)?;
    if let Feed::Row(values) = &command.source {
        return match &call {
            DrawCall::Copy(call) => {
                draw_row(alloc, target, call, values.items(), &frame, &mut clip)
            }
            _ => unreachable!(),
        };
    }
    draw_call(alloc, target, &call, others, command, &mut clip)
}

/// Draws a command's call, which has the surface's own coordinates, in the rectangles of a clip that lies in the surface.
fn draw_call(
    alloc: Global,
    target: &mut Canvas,
    call: &DrawCall,
    others: Others<'_>,
    command: &DeskCommand,
    clip: &mut ClipObj,
) -> Result<(), AllocError>
    requires other { MaskIsOther command.now.target command.now.mask }
    requires made { WasMade (length others.brushes.now) command.now.brush }
    requires source { IsNoRow command.now.source }
    requires moves { PointMovesBack (src_of call.now) (stand_of others.sight.now.at command.now.source) }
    requires inside { All (λ r. LiesIn r target.old.size) clip.old.rects }
    ensures ok { OnOk result ((s : State) → IsBeside s command.now.target target.old others.entry.sight.now others.entry.bitmaps.now others.entry.brushes.now →
        target.new ≡ changed (new_of_call call.now (operands_of s command.now target.old)) (λ p. is_in_some p clip.old.rects) target.old) }
    ensures err { OnErr result (target.new ≡ target.old) }
{
    let plain = BrushObj::solid(alloc, plain_colour(command.brush));
    let inputs = PaneInputs {
        source: others.source(command.target, &command.source),
        mask: others.mask(command.mask),
        brush: others.brush(command.brush, &plain),
        back: command.back,
    };
    calls_move();
    let seen = call.lent_from(others.stand_of(&command.source));
    let call = holding(is_own(command.target, &command.source), &seen);
    target.draw(alloc, &call, &inputs, clip)
}

/// The call, which holds its target where that is its own source.
fn holding(own: bool, call: &DrawCall) -> DrawCall
    ensures { result ≡ holding own call.now }
{
    match call {
        DrawCall::Blt(call) => DrawCall::Blt(BltCall {
            held: own.then_some(call.target),
            ..*call
        }),
        DrawCall::Copy(call) => DrawCall::Copy(CopyCall {
            held: own.then_some(call.target),
            ..*call
        }),
        DrawCall::Paint(call) => DrawCall::Paint(*call),
    }
}

/// Copies a row of values in the surface's own format to the rectangle of a call, whose frame on the surface has points, in the
/// rectangles of a clip within that frame; no colour counts.
fn draw_row(
    alloc: Global,
    target: &mut Canvas,
    call: &CopyCall,
    values: &[u32],
    frame: &Rect,
    clip: &mut ClipObj,
) -> Result<(), AllocError>
    requires copied { CopiesRow call.now values.now }
    requires fits { All (λ v. v < 2 ^ bits_of target.old.format) values.now }
    requires width { target.old.size.w ≤ most_side }
    requires places { length target.old.values ≡ target.old.size.w * target.old.size.h }
    requires frame { (p : Point) → IsIn p frame.now ↔ (IsIn p call.now.rect × IsIn p (whole target.old.size)) }
    requires some { HasPoints frame.now }
    requires inside { All (λ r. LiesIn r target.old.size) clip.old.rects }
    requires within { (p : Point) → IsTrue (is_in_some p clip.old.rects) → IsIn p frame.now }
    ensures ok { OnOk result ((back : Rgb) →
        target.new ≡ changed (new_of_copy call.now (row_operands target.old values.now back)) (λ p. is_in_some p clip.old.rects) target.old) }
    ensures err { OnErr result (target.new ≡ target.old) }
{
    let from = distance(call.rect.left, frame.left) as usize;
    let len = distance(frame.left, frame.right) as usize;
    let row = target.pane().row(alloc, &values[from..from + len])?;
    let part = CopyCall {
        target: call.target,
        rect: *frame,
        held: None,
        src: ORIGIN,
    };
    let no_brush = BrushObj::solid(alloc, BLACK);
    let inputs = PaneInputs {
        source: Some(&row),
        mask: None,
        brush: &no_brush,
        back: BLACK,
    };
    target.draw(alloc, &DrawCall::Copy(part), &inputs, clip)
}
