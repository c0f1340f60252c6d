//! The operations.

ghost use Rattle.geom_base.specs.Points.{HasSides};

use crate::on_bits::{copied, painted};
use geom_base::{Counts, Point, PortAnswer, Rect, Size, Target};
use pix_format::Format;
use port_stage::{Kind, Stage, Tools, value_in};
use region::Region;
use std::alloc::{AllocError, Global};
use surf_obj::LentView;

/// The size of a screen.
pub const SIZE: Size = Size { w: 1024, h: 768 };

/// The size of a target of which a small part is drawn on.
const LARGE: Size = Size { w: 4096, h: 1024 };

/// That part.
const SMALL: Rect = Rect {
    left: 100,
    top: 100,
    right: 116,
    bottom: 116,
};

/// Carries an operation out so often, and gives a number that depends on what was drawn; `None` where there is no such operation.
pub fn repeated(alloc: Global, name: &str, count: u32) -> Result<Option<u32>, AllocError> {
    let Some((what, depth)) = name.split_once('-') else {
        return Ok(None);
    };
    let format = match depth {
        "8" => Format::B8,
        "16" => Format::B565,
        "32" => Format::B32,
        _ => return Ok(None),
    };
    let sum = match what {
        "paint16" => in_part(alloc, format, count)?,
        "paint" => in_whole(alloc, Kind::Paint, format, count)?,
        "whole" => in_whole(alloc, Kind::Whole, format, count)?,
        "solid" => painted(alloc, format, count)?,
        "copy" => copied(alloc, format, count)?,
        _ => return Ok(None),
    };
    Ok(Some(sum))
}

/// A paint of a small part of a large screen, through a port.
fn in_part(alloc: Global, format: Format, count: u32) -> Result<u32, AllocError> {
    match Region::from_rects(alloc, &[SMALL]) {
        Ok(region) => through_port(alloc, Kind::Paint, LARGE, Some(&region), format, count),
        Err(_) => Err(AllocError),
    }
}

/// A call over a whole screen, through a port.
fn in_whole(alloc: Global, kind: Kind, format: Format, count: u32) -> Result<u32, AllocError> {
    through_port(alloc, kind, SIZE, None, format, count)
}

/// A call in a region of a screen, or over all of it, through a port.
fn through_port(
    alloc: Global,
    kind: Kind,
    size: Size,
    region: Option<&Region>,
    format: Format,
    count: u32,
) -> Result<u32, AllocError>
    requires sides { HasSides size }
{
    let tools = Tools::new(alloc, size, format, format)?;
    let none = Counts::of(Vec::new(alloc));
    let mut stage = Stage::new(alloc, tools, region, none, Counts::of(Vec::new(alloc)))?;
    for _ in 0..count {
        if stage.draw(alloc, kind)?.answer != PortAnswer::Done {
            return Err(AllocError);
        }
    }
    Ok(sum_of(&stage.port.pixels(Target::Screen)))
}

/// A number that depends on the values along a diagonal from the first point.
pub fn sum_of(view: &LentView<'_>) -> u32 {
    let mut sum = 0u32;
    for place in 0..768 {
        let value = value_in(view, Point::at(place, place)).unwrap_or(0);
        sum = sum.wrapping_mul(31).wrapping_add(value);
    }
    sum
}
