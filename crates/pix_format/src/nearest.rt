//! The colour of a table that is nearest to another.

ghost use Rattle.std.specs.Prelude.{◌≡◌, ◌<◌, length};
ghost use Rattle.pix_format.specs.Colour.{IsNearest, nearest};

use crate::rgb::Rgb;

/// The index of the table's colour that is nearest to one; of equally near ones the lowest.
///
/// The least of the distances with their indices below them. Where red alone makes more, the rest of a distance isn't asked for.
pub fn nearest(table: &[Rgb], colour: Rgb) -> usize
    requires some { 0 < length table.now }
    requires few { length table.now < 257 }
    ensures nearest { IsNearest table.now colour result }
    ensures index { result ≡ nearest table.now colour }
    ensures within { result < length table.now }
{
    let mut best = table[0].distance(colour) * 256;
    for i in 1..table.len() {
        if table[i].red_distance(colour) * 256 <= best {
            best = best.min(table[i].distance(colour) * 256 + i as u32);
        }
    }
    (best % 256) as usize
}
