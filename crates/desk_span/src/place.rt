//! Where surfaces stand.

ghost use Rattle.std.specs.Prelude.{◌≡◌};
ghost use Rattle.geom_base.specs.Points.{RectMoves};
ghost use Rattle.script_orders.specs.Rows.{zero_point};
ghost use Rattle.brush_obj.specs.Calls.{PointMoves, PointMovesBack};
ghost use Rattle.clip_obj.specs.Clip.{to_origin};
ghost use Rattle.desk_span.specs.InnerBeside.{CanBeSeen};

use brush_obj::DrawCall;
use geom_base::{Point, Rect};

/// The first point of a surface, and of the desk.
pub const ORIGIN: Point = Point { x: 0, y: 0 };

/// The coordinates of a call are numbers of 32 bits, and stay so where nothing is moved.
pub fn is_seen_from_origin(call: &DrawCall)
    ensures { CanBeSeen call.now zero_point zero_point }
{
    match call {
        DrawCall::Blt(call) => {
            edges_fit(&call.rect);
            point_fits(&call.origin);
            point_fits(&call.src);
        }
        DrawCall::Copy(call) => {
            edges_fit(&call.rect);
            point_fits(&call.src);
        }
        DrawCall::Paint(call) => {
            edges_fit(&call.rect);
            point_fits(&call.origin);
        }
    }
}

/// The edges of a rectangle are numbers of 32 bits.
fn edges_fit(rect: &Rect)
    ensures { RectMoves (to_origin zero_point) rect.now }
{
    let _edges = (rect.left, rect.top, rect.right, rect.bottom);
}

/// The coordinates of a point are numbers of 32 bits.
fn point_fits(p: &Point)
    ensures moves { PointMoves p.now (to_origin zero_point) }
    ensures back { PointMovesBack p.now zero_point }
{
    let _coordinates = (p.x, p.y);
}
