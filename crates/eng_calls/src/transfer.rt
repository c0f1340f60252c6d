//! Rectangles between a port and bits.

ghost use Rattle.std.specs.Prelude.{◌≡◌, ◌*◌, ◌≤◌, length};
ghost use Rattle.std.specs.List.{All};
ghost use Rattle.geom_base.specs.Points.{corner_of, height_of, is_in, is_in_some, moved_rect, width_of};
ghost use Rattle.geom_base.specs.Step.{redrawn};
ghost use Rattle.surf_obj.specs.Layout.{Holds, values_in};
ghost use Rattle.surf_obj.specs.Rects.{as_in_at, rect_values};
ghost use Rattle.clip_obj.specs.Clip.{LiesWithin, to_origin};
ghost use Rattle.copy_port.specs.Port.{Draws, IfDone, InTarget, Keeps};
ghost use Rattle.copy_port.specs.State.{surface_of};
ghost use Rattle.eng_calls.specs.InnerBands.{band_count, bands_of};
ghost use Rattle.eng_calls.specs.InnerParts.{IsPart};

use crate::bands::{band_count, band_of, band_size};
use crate::part::Part;
use clip_obj::seen_from;
use copy_port::CopyPort;
use geom_base::{DrawnList, PortAnswer, Rect};
use surf_obj::{read_rect_on, write_rect_on};

/// Reads a rectangle of a part of a target onto bits, by way of room for its values.
fn fetch_rect<P: CopyPort>(
    port: &mut P,
    part: &Part,
    rect: &Rect,
    bits: &mut [u8],
    values: &mut [u32],
) -> PortAnswer
    requires part { IsPart (P.state port.old).shown part.now }
    requires inside { InTarget (P.state port.old).shown part.now.target rect.now }
    requires within { LiesWithin part.now.rect rect.now }
    requires holds { Holds part.now.layout (length bits.old) }
    requires count { length values.old ≡ width_of rect.now * height_of rect.now }
    ensures keeps { Keeps (P.state port.old) (P.state port.new) result }
    ensures values { let s = surface_of (P.state port.old).shown part.now.target in
        let origin = to_origin (corner_of part.now.rect) in
        IfDone result (values_in part.now.layout bits.new ≡ redrawn part.now.layout.size (values_in part.now.layout bits.old)
        (λ p. is_in p (moved_rect rect.now origin)) (as_in_at origin s.size s.values)) }
{
    match port.read_rect(part.target, *rect, values) {
        PortAnswer::Done => {}
        other => return other,
    }
    write_rect_on(
        bits,
        part.layout,
        &seen_from(&part.rect.corner(), rect),
        values,
    );
    PortAnswer::Done
}

/// Reads a part of a target onto bits, by way of room for at least a row.
pub fn fetch<P: CopyPort>(
    port: &mut P,
    part: &Part,
    bits: &mut [u8],
    room: &mut [u32],
) -> PortAnswer
    requires part { IsPart (P.state port.old).shown part.now }
    requires inside { InTarget (P.state port.old).shown part.now.target part.now.rect }
    requires holds { Holds part.now.layout (length bits.old) }
    requires room { width_of part.now.rect ≤ length room.old }
    ensures keeps { Keeps (P.state port.old) (P.state port.new) result }
    ensures values { let s = surface_of (P.state port.old).shown part.now.target in
        IfDone result (values_in part.now.layout bits.new ≡ rect_values part.now.rect s.size s.values) }
{
    let most = room.len();
    let size = band_size(&part.rect, most);
    let count = band_count(&part.rect, most);
    for k in 0..count {
        let band = band_of(&part.rect, most, k);
        match fetch_rect(port, part, &band, bits, &mut room[..size]) {
            PortAnswer::Done => {}
            other => return other,
        }
    }
    PortAnswer::Done
}

/// Writes a rectangle off bits that stand for a part of a target, by way of room for its values.
fn store_band<P: CopyPort>(
    port: &mut P,
    part: &Part,
    rect: &Rect,
    bits: &[u8],
    values: &mut [u32],
    drawn: &mut DrawnList,
) -> PortAnswer
    requires part { IsPart (P.state port.old).shown part.now }
    requires inside { InTarget (P.state port.old).shown part.now.target rect.now }
    requires within { LiesWithin part.now.rect rect.now }
    requires holds { Holds part.now.layout (length bits.now) }
    requires count { length values.old ≡ width_of rect.now * height_of rect.now }
    requires spare { (P.state port.old).rest.cuts ≤ drawn.old.spare }
    ensures { Draws part.now.target (as_in_at (corner_of part.now.rect) part.now.layout.size (values_in part.now.layout bits.now))
        (λ p. is_in p rect.now) (P.state port.old).rest.cuts (P.state port.old) (P.state port.new) drawn.old drawn.new result }
{
    read_rect_on(
        bits,
        part.layout,
        &seen_from(&part.rect.corner(), rect),
        values,
    );
    port.write_rect(part.target, *rect, values, drawn)
}

/// Writes a rectangle in bands.
fn store_rect<P: CopyPort>(
    port: &mut P,
    part: &Part,
    rect: &Rect,
    bits: &[u8],
    room: &mut [u32],
    drawn: &mut DrawnList,
) -> PortAnswer
    requires part { IsPart (P.state port.old).shown part.now }
    requires inside { InTarget (P.state port.old).shown part.now.target rect.now }
    requires within { LiesWithin part.now.rect rect.now }
    requires holds { Holds part.now.layout (length bits.now) }
    requires room { width_of rect.now ≤ length room.old }
    requires spare { (P.state port.old).rest.cuts * band_count (length room.old) rect.now ≤ drawn.old.spare }
    ensures { Draws part.now.target (as_in_at (corner_of part.now.rect) part.now.layout.size (values_in part.now.layout bits.now))
        (λ p. is_in p rect.now) ((P.state port.old).rest.cuts * band_count (length room.old) rect.now)
        (P.state port.old) (P.state port.new) drawn.old drawn.new result }
{
    let most = room.len();
    let size = band_size(rect, most);
    let count = band_count(rect, most);
    for k in 0..count {
        let band = band_of(rect, most, k);
        match store_band(port, part, &band, bits, &mut room[..size], drawn) {
            PortAnswer::Done => {}
            other => return other,
        }
    }
    PortAnswer::Done
}

/// Writes rectangles off bits that stand for a part of a target, by way of room for at least a row, and pushes what was written.
pub fn store<P: CopyPort>(
    port: &mut P,
    part: &Part,
    rects: &[Rect],
    bits: &[u8],
    room: &mut [u32],
    drawn: &mut DrawnList,
) -> PortAnswer
    requires part { IsPart (P.state port.old).shown part.now }
    requires inside { All (InTarget (P.state port.old).shown part.now.target) rects.now }
    requires within { All (LiesWithin part.now.rect) rects.now }
    requires holds { Holds part.now.layout (length bits.now) }
    requires room { All (λ r. width_of r ≤ length room.old) rects.now }
    requires spare { (P.state port.old).rest.cuts * bands_of (length room.old) rects.now ≤ drawn.old.spare }
    ensures { Draws part.now.target (as_in_at (corner_of part.now.rect) part.now.layout.size (values_in part.now.layout bits.now))
        (λ p. is_in_some p rects.now) ((P.state port.old).rest.cuts * bands_of (length room.old) rects.now)
        (P.state port.old) (P.state port.new) drawn.old drawn.new result }
{
    for i in 0..rects.len() {
        match store_rect(port, part, &rects[i], bits, room, drawn) {
            PortAnswer::Done => {}
            other => return other,
        }
    }
    PortAnswer::Done
}
