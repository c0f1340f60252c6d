//! The same calls on bits that hold the target.

ghost use Rattle.std.specs.Prelude.{◌≡◌, All, IfOk, length};
ghost use Rattle.geom_base.specs.Points.{LiesIn};
ghost use Rattle.pix_format.specs.Value.{colours_of};
ghost use Rattle.surf_obj.specs.Layout.{Holds};
ghost use Rattle.brush_obj.specs.Calls.{HoldsOwn, held_of, target_of};
ghost use Rattle.eng_calls.specs.Inputs.{Suits};

use crate::operations::{SIZE, sum_of};
use brush_obj::{BrushObj, DrawCall};
use clip_obj::ClipObj;
use eng_calls::{Inputs, eng_draw};
use geom_base::Point;
use pix_format::{ColourTable, Format};
use port_stage::{Tools, WHITE, copy_call, paint_call};
use rop_mix::Mix;
use std::alloc::{AllocError, Global};
use surf_obj::{Layout, SurfObj};

const ZERO: Point = Point { x: 0, y: 0 };

/// A paint in white of a whole surface so often, and the sum of what it shows then.
pub fn painted(alloc: Global, format: Format, count: u32) -> Result<u32, AllocError> {
    let table = ColourTable::standard(alloc, format)?;
    let brush = BrushObj::solid(alloc, WHITE);
    painted_with(alloc, format, &table, &brush, count)
}

/// The same with a brush.
fn painted_with<'a>(
    alloc: Global,
    format: Format,
    table: &'a ColourTable,
    brush: &'a BrushObj,
    count: u32,
) -> Result<u32, AllocError>
    requires { length table.now ≡ colours_of format }
{
    let Some(mix) = Mix::of(13) else {
        return Err(AllocError);
    };
    let inputs = Inputs {
        source: None,
        mask: None,
        xlate: None,
        table,
        brush: Some(brush),
    };
    let call = DrawCall::Paint(paint_call(SIZE, mix));
    summed(alloc, format, &call, &inputs, count)
}

/// A copy over a whole surface so often, and the sum of what it shows then.
pub fn copied(alloc: Global, format: Format, count: u32) -> Result<u32, AllocError> {
    let tools = Tools::new(alloc, SIZE, format, format)?;
    let source = tools.source.view();
    let inputs = Inputs {
        source: Some(&source),
        mask: None,
        xlate: Some(&tools.lent),
        table: &tools.table,
        brush: None,
    };
    let call = DrawCall::Copy(copy_call(SIZE, None, ZERO));
    summed(alloc, format, &call, &inputs, count)
}

/// The sum of what a surface shows on which a call was drawn so often.
fn summed(
    alloc: Global,
    format: Format,
    call: &DrawCall,
    inputs: &Inputs<'_, '_>,
    count: u32,
) -> Result<u32, AllocError>
    requires held { HoldsOwn (held_of call.now) (target_of call.now) }
    requires suits { Suits call.now inputs.now format }
{
    let mut surface = SurfObj::new(alloc, SIZE, format)?;
    let layout = surface.layout();
    draw(alloc, surface.bits_mut(), layout, call, inputs, count)?;
    Ok(sum_of(&surface.view()))
}

/// Draws a call so often on bits.
fn draw(
    alloc: Global,
    bits: &mut [u8],
    layout: Layout,
    call: &DrawCall,
    inputs: &Inputs<'_, '_>,
    count: u32,
) -> Result<(), AllocError>
    requires holds { Holds layout (length bits.old) }
    requires size { layout.size ≡ record { w = 1024; h = 768 } }
    requires held { HoldsOwn (held_of call.now) (target_of call.now) }
    requires suits { Suits call.now inputs.now layout.format }
{
    for _ in 0..count {
        let mut clip = whole_clip(alloc)?;
        eng_draw(alloc, bits, layout, call, inputs, &mut clip)?;
    }
    Ok(())
}

/// A clip of a whole surface.
fn whole_clip(alloc: Global) -> Result<ClipObj, AllocError>
    ensures { IfOk result (λ c. All (λ r. LiesIn r (record { w = 1024; h = 768 })) c.rects) }
{
    ClipObj::build(alloc, None, SIZE.whole())
}
