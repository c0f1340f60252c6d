use super::*;
use crate::lanes::apply_lanes;
use std::alloc::{AllocError, Global};
use std::simd::u32x8;

/// The codes with a loop of their own, and some without.
const CODES: [u8; 18] = [
    0x00, 0x0f, 0x33, 0x55, 0x5a, 0x66, 0x88, 0xaa, 0xb8, 0xcc, 0xe2, 0xee, 0xf0, 0xff, 0x17, 0x69,
    0x96, 0xca,
];

#[test]
fn each_bit_stands_in_the_code(rt: HostRuntime) {
    for code in 0..=255u8 {
        for row in 0..8u32 {
            let (p, s, d) = (row / 4 % 2, row / 2 % 2, row % 2);
            assert_eq!(rt;
                rop3(code, p, s, d, 1),
                u32::from((code >> row) & 1),
                "{code:02x} {row}"
            );
        }
    }
}

#[test]
fn the_operands_alone(rt: HostRuntime) {
    let (p, s, d) = (0xff00_0ff0, 0x1234_5678, 0xdead_beef);
    let cases = [
        (0xf0, 32, 0xff00_0ff0),
        (0xcc, 32, 0x1234_5678),
        (0xaa, 32, 0xdead_beef),
        (0xff, 32, 0xffff_ffff),
        (0xff, 24, 0x00ff_ffff),
        (0x55, 16, 0x4110),
        (0x66, 8, 0x97),
        (0x00, 1, 0),
        (0xcc, 4, 8),
        (0xff, 0, 0),
    ];
    for (code, bits, want) in cases {
        assert!(rt; bits <= 32);
        assert_eq!(rt; rop3(code, p, s, d, bits), want, "{code:02x} {bits}");
    }
}

#[test]
fn the_low_byte_acts_under_the_mask(rt: HostRuntime) {
    let rop = Rop4::of(0xaacc);
    assert_eq!(rt;
        (rop.code_where_set(), rop.code_where_clear()),
        (0xcc, 0xaa)
    );
    assert_eq!(rt; rop4_bits(rop, true, 0, 0x11, 0x22, 8), 0x11);
    assert_eq!(rt; rop4_bits(rop, false, 0, 0x11, 0x22, 8), 0x22);
}

#[test]
fn mixes_by_number(rt: HostRuntime) {
    let cases = [
        (0, None),
        (1, Some(0x00)),
        (6, Some(0x55)),
        (7, Some(0x5a)),
        (9, Some(0xa0)),
        (11, Some(0xaa)),
        (13, Some(0xf0)),
        (15, Some(0xfa)),
        (16, Some(0xff)),
        (17, None),
    ];
    for (number, want) in cases {
        assert_eq!(rt; code_of(number), want, "mix {number}");
    }
}

fn code_of(number: u8) -> Option<u8> {
    let mix = Mix::of(number)?;
    if mix.number() == number {
        Some(mix.rop3())
    } else {
        None
    }
}

#[test]
fn what_each_code_needs(rt: HostRuntime) {
    let cases = [
        (0xcccc, false, true, false),
        (0xf0f0, true, false, false),
        (0x5555, false, false, false),
        (0xaacc, false, true, true),
        (0xaaf0, true, false, true),
        (0xb8b8, true, true, false),
        (0x5a66, true, true, true),
        (0x00ff, false, false, true),
    ];
    for (code, pattern, source, mask) in cases {
        let rop = Rop4::of(code);
        let needs = (needs_pattern(rop), needs_source(rop), needs_mask(rop));
        assert_eq!(rt; needs, (pattern, source, mask), "{code:04x}");
    }
}

#[test]
fn rows_value_by_value(rt: HostRuntime) -> Result<(), AllocError> {
    let alloc = rt.alloc();
    for code in CODES {
        for count in [0, 1, 7, 8, 9, 33] {
            let (p, s) = (mixed(alloc, count, 11)?, mixed(alloc, count, 5)?);
            let before = mixed(alloc, count, 3)?;
            let (mut row, mut solid, mut fill) = (
                before.clone()?,
                before.clone()?,
                before.clone()?,
            );
            let of_one_length = row_of_all(code, &p, &s, &mut row)
                && row_of_one(code, &s, &mut solid);
            assert!(rt; of_one_length, "{count} values of each");
            apply_fill(code, 0xf0, &mut fill, 8);
            for i in 0..count {
                let got = (
                    row.get(i).copied(),
                    solid.get(i).copied(),
                    fill.get(i).copied(),
                );
                assert_eq!(rt;
                    got,
                    wanted(code, at(&p, i), at(&s, i), at(&before, i)),
                    "{code:02x} {count} {i}"
                );
            }
        }
    }
    Ok(())
}

type Found = (Option<u32>, Option<u32>, Option<u32>);

fn wanted(code: u8, p: u32, s: u32, d: u32) -> Found {
    (
        Some(rop3(code, p, s, d, 24)),
        Some(rop3(code, 0xf0, s, d, 16)),
        Some(rop3(code, 0xf0, 0, d, 8)),
    )
}

fn row_of_all(code: u8, p: &[u32], s: &[u32], d: &mut [u32]) -> bool {
    if p.len() != d.len() {
        return false;
    }
    if s.len() != d.len() {
        return false;
    }
    apply_row(code, p, s, d, 24);
    true
}

fn row_of_one(code: u8, s: &[u32], d: &mut [u32]) -> bool {
    if s.len() != d.len() {
        return false;
    }
    apply_solid(code, 0xf0, s, d, 16);
    true
}

fn at(values: &[u32], i: usize) -> u32 {
    values.get(i).copied().unwrap_or(0)
}

/// Values in which each bit changes along the row.
fn mixed(alloc: Global, count: usize, by: u32) -> Result<Vec<u32>, AllocError> {
    let mut values = Vec::new(alloc);
    let mut value: u32 = by;
    for _ in 0..count {
        value = value.wrapping_mul(1_664_525).wrapping_add(1_013_904_223);
        values.push(value)?;
    }
    Ok(values)
}

#[test]
fn lanes_do_what_one_value_does(rt: HostRuntime) {
    let s = u32x8::from_array([0, 1, 2, 3, 4, 5, 6, 0x1ff]);
    let got = apply_lanes(0x66, u32x8::splat(9), s, u32x8::splat(0x30), 8);
    let want = [0x30, 0x31, 0x32, 0x33, 0x34, 0x35, 0x36, 0xcf];
    assert_eq!(rt; got.to_array(), want);
}

#[test]
fn a_mask_chooses_along_a_row(rt: HostRuntime) {
    let (m, p, s) = ([1, 0, 1, 1], [5, 6, 7, 8], [0x11, 0x22, 0x55, 0x66]);
    let cases = [
        (0xaacc, [0x11, 2, 0x55, 0x66]),
        (0xccaa, [1, 0x22, 3, 4]),
        (0xaaf0, [5, 2, 7, 8]),
        (0x66cc, [0x11, 0x20, 0x55, 0x66]),
    ];
    for (code, want) in cases {
        let mut d = [1, 2, 3, 4];
        apply_masked(Rop4::of(code), &m, &p, &s, &mut d, 8);
        assert_eq!(rt; d, want, "{code:04x}");
    }
}
