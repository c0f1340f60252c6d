//! Values, colours and translations that were worked out by hand or by an independent model.

ghost use Rattle.std.specs.Prelude.{◌<◌, ◌^◌};
ghost use Rattle.pix_format.specs.Value.{bits_of};

use crate::{
    ColourTable, Format, Rgb, XlateKind, XlateObj, colour_of, convert_row, value_of, values_of_row,
};
use std::alloc::{AllocError, Global};

const FORMATS: [Format; 7] = [
    Format::B1,
    Format::B4,
    Format::B8,
    Format::B555,
    Format::B565,
    Format::B24,
    Format::B32,
];

const WHITE: Rgb = Rgb {
    r: 0xff,
    g: 0xff,
    b: 0xff,
};

/// The colour of six hexadecimal digits.
fn rgb(digits: u32) -> Rgb {
    Rgb {
        r: (digits >> 16 & 0xff) as u8,
        g: (digits >> 8 & 0xff) as u8,
        b: (digits & 0xff) as u8,
    }
}

#[test]
fn sizes_of_formats(rt: HostRuntime) {
    let rows = [
        (Format::B1, 1, 2, 1),
        (Format::B4, 4, 16, 1),
        (Format::B8, 8, 256, 2),
        (Format::B555, 16, 0, 4),
        (Format::B565, 16, 0, 4),
        (Format::B24, 24, 0, 6),
        (Format::B32, 32, 0, 8),
    ];
    for (format, bits, colours, digits) in rows {
        assert_eq!(rt; format.bits(), bits);
        assert_eq!(rt; format.colours(), colours);
        assert_eq!(rt; format.digits(), digits);
    }
}

#[test]
fn values_of_colours(rt: HostRuntime) -> Result<(), AllocError> {
    let rows = [
        (0x120000, [0, 0, 0x00, 0x0800, 0x1000, 0x120000, 0x120000]),
        (0x130000, [0, 0, 0x20, 0x0800, 0x1000, 0x130000, 0x130000]),
        (0xff0000, [0, 5, 0xe0, 0x7c00, 0xf800, 0xff0000, 0xff0000]),
        (0x0000ff, [0, 5, 0x03, 0x001f, 0x001f, 0x0000ff, 0x0000ff]),
        (0x808080, [1, 8, 0x92, 0x4210, 0x8410, 0x808080, 0x808080]),
        (0xa77394, [1, 8, 0xae, 0x51d2, 0xa392, 0xa77394, 0xa77394]),
        (0x6bffd1, [1, 11, 0x7e, 0x37fa, 0x6ffa, 0x6bffd1, 0x6bffd1]),
        (0x1240e6, [0, 6, 0x0b, 0x091c, 0x121c, 0x1240e6, 0x1240e6]),
    ];
    for (colour, values) in rows {
        for (format, value) in FORMATS.iter().zip(values) {
            let table = ColourTable::standard(rt.alloc(), *format)?;
            assert_eq!(rt;
                value_of(*format, &table, rgb(colour)),
                value,
                "{colour} as {format:?}"
            );
        }
    }
    Ok(())
}

#[test]
fn values_of_a_row_of_colours(rt: HostRuntime) -> Result<(), AllocError> {
    let colours = [rgb(0x120000), rgb(0xff0000), rgb(0x6bffd1), rgb(0xff0000)];
    let rows = [
        (Format::B4, [0, 5, 11, 5]),
        (Format::B8, [0x00, 0xe0, 0x7e, 0xe0]),
        (Format::B565, [0x1000, 0xf800, 0x6ffa, 0xf800]),
    ];
    for (format, want) in rows {
        let table = ColourTable::standard(rt.alloc(), format)?;
        let mut row = [0; 4];
        values_of_row(format, &table, &colours, &mut row);
        assert_eq!(rt; row, want, "{format:?}");
    }
    Ok(())
}

/// The colour of a value under the standard table.
fn shown(alloc: Global, format: Format, value: u32) -> Result<Rgb, AllocError>
    requires { value < 2 ^ bits_of format }
{
    let table = ColourTable::standard(alloc, format)?;
    Ok(colour_of(format, &table, value))
}

#[test]
fn colours_of_values(rt: HostRuntime) -> Result<(), AllocError> {
    let alloc = rt.alloc();
    assert_eq!(rt; shown(alloc, Format::B1, 1)?, WHITE);
    assert_eq!(rt; shown(alloc, Format::B4, 0xb)?, rgb(0xbbbbbb));
    assert_eq!(rt; shown(alloc, Format::B8, 0x18)?, rgb(0x00db00));
    assert_eq!(rt; shown(alloc, Format::B8, 0xbf)?, rgb(0xb6ffff));
    assert_eq!(rt; shown(alloc, Format::B555, 0xf82a)?, rgb(0xf70852));
    assert_eq!(rt; shown(alloc, Format::B565, 0xfa35)?, rgb(0xff45ad));
    assert_eq!(rt; shown(alloc, Format::B24, 0x1f4b86)?, rgb(0x1f4b86));
    assert_eq!(rt; shown(alloc, Format::B32, 0x758bb358)?, rgb(0x8bb358));
    Ok(())
}

/// The kind of the translation between standard tables with a white background, and what it makes
/// of a value, alone and at the end of a row.
fn translated(
    alloc: Global,
    from: Format,
    to: Format,
    value: u32,
) -> Result<(XlateKind, u32, u32), AllocError>
    requires { value < 2 ^ bits_of from }
{
    let from_table = ColourTable::standard(alloc, from)?;
    let to_table = ColourTable::standard(alloc, to)?;
    let xlate = XlateObj::build(alloc, from, &from_table, to, &to_table, WHITE)?;
    let mut row = [0, value];
    xlate.xlate_row(&mut row);
    Ok((xlate.kind(), xlate.xlate(value), row[1]))
}

#[test]
fn translations_by_table(rt: HostRuntime) -> Result<(), AllocError> {
    let alloc = rt.alloc();
    let table = XlateKind::Table;
    assert_eq!(rt;
        translated(alloc, Format::B1, Format::B555, 1)?,
        (table, 0x7fff, 0x7fff)
    );
    assert_eq!(rt;
        translated(alloc, Format::B4, Format::B8, 0x7)?,
        (table, 0x6d, 0x6d)
    );
    assert_eq!(rt;
        translated(alloc, Format::B8, Format::B4, 0x51)?,
        (table, 6, 6)
    );
    assert_eq!(rt;
        translated(alloc, Format::B8, Format::B565, 0x2e)?,
        (table, 0x2375, 0x2375)
    );
    assert_eq!(rt;
        translated(alloc, Format::B8, Format::B32, 0x5b)?,
        (table, 0x49dbff, 0x49dbff)
    );
    Ok(())
}

#[test]
fn translations_by_pixel(rt: HostRuntime) -> Result<(), AllocError> {
    let alloc = rt.alloc();
    let pixel = XlateKind::Computed;
    assert_eq!(rt;
        translated(alloc, Format::B32, Format::B8, 0xffffffff)?,
        (pixel, 0xff, 0xff)
    );
    assert_eq!(rt;
        translated(alloc, Format::B24, Format::B4, 0x9afbcc)?,
        (pixel, 0xc, 0xc)
    );
    assert_eq!(rt;
        translated(alloc, Format::B555, Format::B565, 0xf37e)?,
        (pixel, 0xe6fe, 0xe6fe)
    );
    assert_eq!(rt;
        translated(alloc, Format::B565, Format::B555, 0xb6d8)?,
        (pixel, 0x5b78, 0x5b78)
    );
    assert_eq!(rt;
        translated(alloc, Format::B565, Format::B32, 0xf4f3)?,
        (pixel, 0xf79e9c, 0xf79e9c)
    );
    assert_eq!(rt;
        translated(alloc, Format::B32, Format::B24, 0xa28d572f)?,
        (pixel, 0x8d572f, 0x8d572f)
    );
    Ok(())
}

#[test]
fn translations_that_keep_or_mark(rt: HostRuntime) -> Result<(), AllocError> {
    let alloc = rt.alloc();
    let mono = XlateKind::ToMono;
    assert_eq!(rt;
        translated(alloc, Format::B8, Format::B1, 0xff)?,
        (mono, 1, 1)
    );
    assert_eq!(rt;
        translated(alloc, Format::B8, Format::B1, 0x00)?,
        (mono, 0, 0)
    );
    assert_eq!(rt;
        translated(alloc, Format::B32, Format::B1, 0xffffff)?,
        (mono, 1, 1)
    );
    assert_eq!(rt;
        translated(alloc, Format::B32, Format::B1, 0xffffffff)?,
        (mono, 0, 0)
    );
    let same = (XlateKind::Trivial, 0xffffffff, 0xffffffff);
    assert_eq!(rt;
        translated(alloc, Format::B32, Format::B32, 0xffffffff)?,
        same
    );
    Ok(())
}

#[test]
fn table_of_its_own(rt: HostRuntime) -> Result<(), AllocError> {
    let alloc = rt.alloc();
    let own = ColourTable::of(alloc, &[rgb(0x000000), rgb(0x00ff00)])?;
    let standard = ColourTable::standard(alloc, Format::B8)?;
    let xlate = XlateObj::build(alloc, Format::B1, &own, Format::B8, &standard, WHITE)?;
    let mut row = [0, 1];
    xlate.xlate_row(&mut row);
    assert_eq!(rt; row, [0x00, 0x1c]);
    let plain = ColourTable::standard(alloc, Format::B1)?;
    let xlate = XlateObj::build(alloc, Format::B1, &own, Format::B1, &plain, WHITE)?;
    assert_eq!(rt; xlate.kind(), XlateKind::Table);
    assert_eq!(rt; xlate.xlate(1), 0);
    Ok(())
}

#[test]
fn rows_with_nothing_made_ready(rt: HostRuntime) -> Result<(), AllocError> {
    let table = ColourTable::standard(rt.alloc(), Format::B8)?;
    let rows = [
        (Format::B1, [1, 0, 0]),
        (Format::B8, [0xe0, 0x03, 0x18]),
        (Format::B24, [0xff0000, 0x0000ff, 0x00db00]),
    ];
    for (format, want) in rows {
        let to = ColourTable::standard(rt.alloc(), format)?;
        let mut row = [0xe0, 0x03, 0x18];
        convert_row(Format::B8, &table, format, &to, rgb(0xff0000), &mut row);
        assert_eq!(rt; row, want, "{format:?}");
    }
    Ok(())
}
