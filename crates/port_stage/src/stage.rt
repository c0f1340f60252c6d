//! The targets, and the clip in which calls are drawn.

ghost use Rattle.std.specs.Prelude.{◌≡◌, IfOk};
ghost use Rattle.geom_base.specs.Points.{HasSides, whole};
ghost use Rattle.port_stage.specs.Stage.{IsStage};

use crate::picture::{BITMAP, SCREEN};
use crate::tools::Tools;
use clip_obj::ClipObj;
use geom_base::{Counts, MOST_SIDE, Point, Size, Target};
use mem_port::MemPort;
use pix_format::{ColourTable, Format};
use region::Region;
use std::alloc::{AllocError, Global};
use surf_obj::LentView;

/// A port that shows a screen and a bitmap of one size and format, a clip of the screen, and what calls are drawn with.
#[derive(Drop)]
pub struct Stage {
    pub port: MemPort,
    pub clip: ClipObj,
    pub tools: Tools,
    ghost targets: { IsStage tools.size tools.format port },
    ghost bounds: { clip.bounds ≡ whole tools.size },
}

impl Stage {
    /// A stage with a clip of a region, or of the whole screen where there is none: the calls of the device that the one list has fail, and
    /// the writes of the other after a row.
    ///
    /// # Errors
    ///
    /// `AllocError` for want of memory.
    pub fn new(
        alloc: Global,
        tools: Tools,
        region: Option<&Region>,
        fails: Counts,
        breaks: Counts,
    ) -> Result<Stage, AllocError> {
        let port = port_of(alloc, tools.size, tools.format, fails, breaks)?;
        let clip = ClipObj::build(alloc, region, tools.size.whole())?;
        Ok(Stage { port, clip, tools })
    }
}

/// The value at a point of a view, or `None` outside.
pub fn value_in(view: &LentView<'_>, p: Point) -> Option<u32> {
    let size = view.size();
    if size.w > MOST_SIDE || size.h > MOST_SIDE {
        return None;
    }
    if !size.whole().holds(p) {
        return None;
    }
    Some(view.get(p))
}

/// A port that shows two of the pictures, and writes a rectangle in up to three parts.
fn port_of(
    alloc: Global,
    size: Size,
    format: Format,
    fails: Counts,
    breaks: Counts,
) -> Result<MemPort, AllocError>
    requires sides { HasSides size }
    ensures { IfOk result (IsStage size format) }
{
    let table = ColourTable::standard(alloc, format)?;
    let bitmap = BITMAP.surface(alloc, size, format)?;
    let values = SCREEN.values(alloc, size, format)?;
    let port = MemPort::new(alloc, size, format, table, bitmap, fails)?;
    let mut port = port.with_cuts(3, breaks);
    port.set_rect(Target::Screen, &size.whole(), &values);
    Ok(port)
}
