//! Writing off bits that stand for a part of a target, with room for all that is pushed.

ghost use Rattle.std.specs.Prelude.{◌≡◌, ◌+◌, ◌*◌, ◌≤◌, length, OnOk, OnErr};
ghost use Rattle.std.specs.List.{All};
ghost use Rattle.geom_base.specs.Points.{corner_of, is_in_some, width_of};
ghost use Rattle.surf_obj.specs.Layout.{Holds, values_in};
ghost use Rattle.surf_obj.specs.Rects.{as_in_at};
ghost use Rattle.clip_obj.specs.Clip.{LiesWithin};
ghost use Rattle.copy_port.specs.Port.{Draws, InTarget};
ghost use Rattle.eng_calls.specs.InnerBands.{bands_of};
ghost use Rattle.eng_calls.specs.InnerParts.{IsPart};

use crate::bands::bands_of;
use crate::part::Part;
use crate::transfer::store;
use copy_port::CopyPort;
use geom_base::{DrawnList, PortAnswer, Rect};
use std::alloc::AllocError;

/// Makes room for the entries of all parts of some rectangles, beside what is left of the room that there is when so many entries for each
/// rectangle are taken.
fn reserve_bands(
    drawn: &mut DrawnList,
    rects: &[Rect],
    room: usize,
    cuts: u32,
) -> Result<(), AllocError>
    requires { cuts * length rects.now ≤ drawn.old.spare }
    ensures rects { drawn.new.rects ≡ drawn.old.rects }
    ensures kept { drawn.old.spare ≤ drawn.new.spare }
    ensures enough { OnOk result (cuts * bands_of room rects.now ≤ drawn.new.spare) }
    ensures left { OnOk result (drawn.old.spare + cuts * bands_of room rects.now ≤ drawn.new.spare + cuts * length rects.now) }
    ensures err { OnErr result (drawn.new ≡ drawn.old) }
{
    let bands = match bands_of(rects, room) {
        Some(bands) => bands,
        None => return Err(AllocError),
    };
    if bands == rects.len() as u64 {
        return Ok(());
    }
    let needed = match bands.checked_mul(u64::from(cuts)) {
        Some(needed) => needed,
        None => return Err(AllocError),
    };
    match needed.checked_add(drawn.spare() as u64) {
        Some(entries) => drawn.reserve(entries as usize),
        None => Err(AllocError),
    }
}

/// Writes rectangles off bits that stand for a part of a target, by way of room for at least a row of each, and pushes what was written. Room for
/// entries beyond one part of each rectangle is made first.
pub fn store_all<P: CopyPort>(
    port: &mut P,
    part: &Part,
    rects: &[Rect],
    bits: &[u8],
    room: &mut [u32],
    drawn: &mut DrawnList,
) -> PortAnswer
    requires part { IsPart (P.state port.old).shown part.now }
    requires inside { All (InTarget (P.state port.old).shown part.now.target) rects.now }
    requires within { All (LiesWithin part.now.rect) rects.now }
    requires holds { Holds part.now.layout (length bits.now) }
    requires room { All (λ r. width_of r ≤ length room.old) rects.now }
    requires spare { (P.state port.old).rest.cuts * length rects.now ≤ drawn.old.spare }
    ensures { Draws part.now.target (as_in_at (corner_of part.now.rect) part.now.layout.size (values_in part.now.layout bits.now))
        (λ p. is_in_some p rects.now) ((P.state port.old).rest.cuts * length rects.now)
        (P.state port.old) (P.state port.new) drawn.old drawn.new result }
{
    let spare = drawn.spare();
    if reserve_bands(drawn, rects, room.len(), port.max_cuts()).is_err() {
        return PortAnswer::NoMemory;
    }
    let answer = store(port, part, rects, bits, room, drawn);
    drawn.give_back(spare);
    answer
}
