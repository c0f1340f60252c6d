//! Rows of values.

ghost use Rattle.std.specs.Prelude.{◌≡◌, ◌<◌, ◌^◌, All, length};
ghost use Rattle.pix_format.specs.Value.{bits_of};
ghost use Rattle.surf_obj.specs.Layout.{Holds, values_in};
ghost use Rattle.surf_obj.specs.Lent.{format_of, size_of, values_of, OnlyPixels};

use crate::place::ORIGIN;
use surf_obj::{Layout, LentSurf};

/// Puts values into bits that hold a surface of one row.
pub fn put_values(bits: &mut [u8], layout: Layout, values: &[u32])
    requires holds { Holds layout (length bits.old) }
    requires width { layout.size.w ≡ length values.now }
    requires height { layout.size.h ≡ 1 }
    requires fits { All (λ v. v < 2 ^ bits_of layout.format) values.now }
    ensures { values_in layout bits.new ≡ values.now }
{
    put_row(&mut LentSurf::on(bits, layout), values);
}

/// The same on a surface that was lent.
fn put_row(row: &mut LentSurf<'_>, values: &[u32])
    requires width { (size_of row.old).w ≡ length values.now }
    requires height { (size_of row.old).h ≡ 1 }
    requires fits { All (λ v. v < 2 ^ bits_of (format_of row.old)) values.now }
    ensures values { values_of row.new ≡ values.now }
    ensures only { OnlyPixels row.old row.new }
{
    row.write_row(ORIGIN, values);
}
