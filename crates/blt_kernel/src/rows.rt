//! Drawings row by row, and in a row run by run.

ghost use Rattle.std.specs.Prelude.{◌≡◌, ◌≤◌, ◌<◌, ◌+◌, ◌-◌, if◌then◌else◌};
ghost use Rattle.surf_obj.specs.Lent.{size_of, format_of};
ghost use Rattle.blt_kernel.specs.InnerDrawing.{HasOperands, IsDrawn};
ghost use Rattle.blt_kernel.specs.InnerOrder.{KeepsSource};
ghost use Rattle.blt_kernel.specs.InnerWays.{IsWayOf};

use crate::drawing::Drawing;
use crate::edges::Edges;
use crate::way::Way;
use geom_base::Point;
use surf_obj::LentSurf;

/// The most pixels that are drawn at once.
const RUN: u32 = 512;

/// Draws in a box, its rows from the top and from the left, or from the bottom and from the right.
pub fn draw_box(drawing: &Drawing<'_>, dst: &mut LentSurf<'_>, edges: &Edges, forward: bool)
    requires across { edges.now.left ≤ edges.now.right }
    requires down { edges.now.top ≤ edges.now.bottom }
    requires able { HasOperands drawing.now (size_of dst.old) (format_of dst.old) edges.now.left edges.now.top edges.now.right edges.now.bottom }
    requires order { KeepsSource drawing.now.source forward }
    ensures { IsDrawn drawing.now edges.now.left edges.now.top edges.now.right edges.now.bottom dst.old dst.new }
{
    let way = drawing.way(dst, edges);
    for i in 0..edges.bottom - edges.top {
        let y = part_start(edges.top, edges.bottom, i, 1, forward);
        draw_row(drawing, &way, dst, edges.left, edges.right, y, forward);
    }
}

/// Draws in a row, from the left or from the right.
fn draw_row(
    drawing: &Drawing<'_>,
    way: &Way<'_>,
    dst: &mut LentSurf<'_>,
    left: u32,
    right: u32,
    y: u32,
    forward: bool,
)
    requires across { left ≤ right }
    requires able { HasOperands drawing.now (size_of dst.old) (format_of dst.old) left y right (y + 1) }
    requires order { KeepsSource drawing.now.source forward }
    requires way { IsWayOf drawing.now (format_of dst.old) left way.now }
    ensures { IsDrawn drawing.now left y right (y + 1) dst.old dst.new }
{
    match way {
        Way::Fill(value) => dst.fill_row(Point::at(left, y), (right - left) as usize, *value),
        Way::Copy(source) => source.copy_row(dst, left, y, (right - left) as usize),
        Way::Combine => draw_runs(drawing, dst, left, right, y, forward),
    }
}

/// Draws in a row run by run, from the left or from the right.
fn draw_runs(
    drawing: &Drawing<'_>,
    dst: &mut LentSurf<'_>,
    left: u32,
    right: u32,
    y: u32,
    forward: bool,
)
    requires across { left ≤ right }
    requires able { HasOperands drawing.now (size_of dst.old) (format_of dst.old) left y right (y + 1) }
    requires order { KeepsSource drawing.now.source forward }
    ensures { IsDrawn drawing.now left y right (y + 1) dst.old dst.new }
{
    let width = right - left;
    let mut done = 0;
    while done < width {
        let len = RUN.min(width - done);
        let x = part_start(left, right, done, len, forward);
        drawing.draw_run(dst, x, y, len as usize);
        done += len;
    }
}

/// Where the next part begins, after a part that is done.
fn part_start(from: u32, to: u32, done: u32, len: u32, forward: bool) -> u32
    requires order { from ≤ to }
    requires inside { from + done + len ≤ to }
    ensures { result ≡ (if forward then from + done else to - done - len) }
{
    if forward {
        from + done
    } else {
        to - done - len
    }
}
