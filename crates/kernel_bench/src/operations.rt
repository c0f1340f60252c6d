//! The operations.

ghost use Rattle.std.specs.Prelude.{◌≡◌, ◌≤◌, ◌*◌, length};
ghost use Rattle.pix_format.specs.Value.{bits_of};

use crate::board::{
    SHIFTED, SIZE, WHITE, WHOLE, blt_call, copy_call, hatch, layout_of, noise, paint_call, pattern,
    solid, stride_of,
};
use blt_kernel::{bit_blt_rect, copy_rect, paint_rect};
use brush_obj::{BrushObj, BrushRefusal};
use geom_base::{Rect, Target};
use pix_format::{ColourTable, Format, XlateObj};
use rop_mix::Mix;
use std::alloc::{AllocError, Global};
use surf_obj::{LentSurf, LentView};

/// Carries an operation out so often, and gives a number that depends on what was drawn; `None` where there is no such operation.
pub fn repeated(alloc: Global, name: &str, count: u32) -> Result<Option<u32>, BrushRefusal> {
    let Some((what, depth)) = name.split_once('-') else {
        return Ok(None);
    };
    let Some(format) = format_of(depth) else {
        return Ok(None);
    };
    let len = SIZE.h as usize * stride_of(format) as usize;
    let mut room = noise(alloc, len, false)?;
    let bits = room.as_mut_slice();
    let known = carry_out(alloc, what, format, bits, count)?;
    Ok(if known { Some(sum_of(bits)) } else { None })
}

/// A format by the bits of a pixel.
fn format_of(depth: &str) -> Option<Format> {
    match depth {
        "1" => Some(Format::B1),
        "4" => Some(Format::B4),
        "8" => Some(Format::B8),
        "16" => Some(Format::B565),
        "24" => Some(Format::B24),
        "32" => Some(Format::B32),
        _ => None,
    }
}

fn sum_of(bits: &[u8]) -> u32 {
    let mut sum = 0u32;
    for i in 0..bits.len() / 4096 {
        sum = sum.wrapping_mul(31).wrapping_add(bits[4096 * i] as u32);
    }
    sum
}

/// Carries an operation out on these bits; whether there is such an operation.
fn carry_out(
    alloc: Global,
    what: &str,
    format: Format,
    bits: &mut [u8],
    count: u32,
) -> Result<bool, BrushRefusal>
    requires { 98304 * bits_of format ≤ length bits.old }
{
    match what {
        "solid" => paint(alloc, &solid(alloc), 13, format, bits, count)?,
        "xor" => paint(alloc, &solid(alloc), 7, format, bits, count)?,
        "hatch" => paint(alloc, &hatch(alloc), 13, format, bits, count)?,
        "pattern" => paint(alloc, &pattern(alloc)?, 13, format, bits, count)?,
        "self" => move_within(alloc, format, bits, count)?,
        "copy" => copy(alloc, format, false, format, bits, count)?,
        "from8" => copy(alloc, Format::B8, false, format, bits, count)?,
        "from32" => copy(alloc, Format::B32, true, format, bits, count)?,
        "many" => copy(alloc, Format::B32, false, format, bits, count)?,
        "masked" => combine(alloc, 0xaacc, format, bits, count)?,
        "b8" => combine(alloc, 0xb8b8, format, bits, count)?,
        "66" => combine(alloc, 0x6666, format, bits, count)?,
        "set" => set_bytes(bits, count),
        "move" => move_bytes(alloc, bits, count)?,
        _ => return Ok(false),
    }
    Ok(true)
}

fn paint(
    alloc: Global,
    brush: &BrushObj,
    mix: u8,
    format: Format,
    bits: &mut [u8],
    count: u32,
) -> Result<(), AllocError>
    requires { 98304 * bits_of format ≤ length bits.old }
{
    let table = ColourTable::standard(alloc, format)?;
    let Some(mix) = Mix::of(mix) else {
        return Ok(());
    };
    let call = paint_call(mix);
    let layout = layout_of(format);
    for _ in 0..count {
        let mut dst = LentSurf::on(bits, layout);
        paint_rect(&mut dst, WHOLE, &call, &table, brush);
    }
    Ok(())
}

/// A copy of a surface of few values or many onto the target.
fn copy(
    alloc: Global,
    from: Format,
    few: bool,
    format: Format,
    bits: &mut [u8],
    count: u32,
) -> Result<(), AllocError>
    requires { 98304 * bits_of format ≤ length bits.old }
{
    let from_table = ColourTable::standard(alloc, from)?;
    let table = ColourTable::standard(alloc, format)?;
    let xlate = XlateObj::build(alloc, from, &from_table, format, &table, WHITE)?;
    let source = noise(alloc, SIZE.h as usize * stride_of(from) as usize, few)?;
    let view = LentView::on(source.as_slice(), layout_of(from));
    let call = copy_call(WHOLE, None);
    let layout = layout_of(format);
    for _ in 0..count {
        let mut dst = LentSurf::on(bits, layout);
        copy_rect(&mut dst, WHOLE, &call, Some(&view), &xlate);
    }
    Ok(())
}

/// A copy of the target within itself, one pixel down and to the right.
fn move_within(alloc: Global, format: Format, bits: &mut [u8], count: u32) -> Result<(), AllocError>
    requires { 98304 * bits_of format ≤ length bits.old }
{
    let table = ColourTable::standard(alloc, format)?;
    let xlate = XlateObj::build(alloc, format, &table, format, &table, WHITE)?;
    let call = copy_call(SHIFTED, Some(Target::Screen));
    let layout = layout_of(format);
    for _ in 0..count {
        let mut dst = LentSurf::on(bits, layout);
        copy_rect(&mut dst, SHIFTED, &call, None, &xlate);
    }
    Ok(())
}

/// A raster operation with a source of the target's format, a mask and a pattern.
fn combine(
    alloc: Global,
    code: u16,
    format: Format,
    bits: &mut [u8],
    count: u32,
) -> Result<(), BrushRefusal>
    requires { 98304 * bits_of format ≤ length bits.old }
{
    let table = ColourTable::standard(alloc, format)?;
    let xlate = XlateObj::build(alloc, format, &table, format, &table, WHITE)?;
    let layout = layout_of(format);
    let source = noise(alloc, SIZE.h as usize * layout.stride as usize, false)?;
    let view = LentView::on(source.as_slice(), layout);
    let choice = noise(alloc, 98304, false)?;
    let mask = LentView::on(choice.as_slice(), layout_of(Format::B1));
    let brush = pattern(alloc)?;
    let call = blt_call(code);
    for _ in 0..count {
        let mut dst = LentSurf::on(bits, layout);
        bit_blt_rect(
            &mut dst,
            WHOLE,
            &call,
            Some(&view),
            Some(&mask),
            &xlate,
            &table,
            &brush,
        );
    }
    Ok(())
}

/// All the bytes set to one value, which changes.
fn set_bytes(bits: &mut [u8], count: u32) {
    for i in 0..count {
        bits.fill((i & 0xff) as u8);
    }
}

/// As many bytes copied from elsewhere.
fn move_bytes(alloc: Global, bits: &mut [u8], count: u32) -> Result<(), AllocError> {
    let source = noise(alloc, bits.len(), false)?;
    for _ in 0..count {
        overwrite(bits, source.as_slice());
    }
    Ok(())
}

/// Copies bytes over as many others.
#[inline(never)]
fn overwrite(bits: &mut [u8], source: &[u8]) {
    if source.len() == bits.len() {
        bits.copy_from_slice(source);
    }
}
