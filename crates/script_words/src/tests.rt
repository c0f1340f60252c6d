//! Lines, words, and words of each kind.

use crate::{
    Refusal, colour, count, find_line, first_line, first_lines, hexadecimal, is_name, number,
    point, rect, well_ordered, word, words,
};
use geom_base::{Point, Rect};
use pix_format::Rgb;
use std::test::Fail;

#[test]
fn lines_one_after_the_other(rt: HostRuntime) {
    // A text, its first line, and how many bytes stand behind that line's LF, where it has one.
    let cases: [(&[u8], &[u8], Option<usize>); 6] = [
        (b"", b"", None),
        (b"a\nb", b"a", Some(1)),
        (b"a\r\nb\n", b"a", Some(2)),
        (b"a\r\r\n", b"a\r", Some(0)),
        (b"a\r", b"a\r", None),
        (b"\n", b"", Some(0)),
    ];
    for (text, want, rest) in cases {
        let (line, after) = first_line(text);
        assert_eq!(rt; line, want, "{text:?}");
        assert_eq!(rt; after.map(|rest| rest.len()), rest, "{text:?}");
    }
}

#[test]
fn lines_that_are_looked_for(rt: HostRuntime) -> Result<(), Fail> {
    let text = b"a%%\n%% \n%%\r\n%%\n";
    let found = find_line(text, b"%%").map(|found| (found.before, found.after.is_some()));
    assert_eq!(rt; found, Some((2, true)));
    assert!(rt; find_line(text, b"%").is_none());
    let lines = first_lines(rt.alloc(), text, 3)?;
    assert_eq!(rt; lines.len(), 3);
    assert_eq!(rt; word(&lines, 1), b"%% ".as_slice());
    assert_eq!(rt; word(&lines, 2), b"%%".as_slice());
    Ok(())
}

#[test]
fn words_with_spaces_between(rt: HostRuntime) -> Result<(), Fail> {
    let line = words(rt.alloc(), b"  one \ttwo  3 ")?;
    assert_eq!(rt; line.len(), 3);
    assert_eq!(rt; word(&line, 0), b"one".as_slice());
    assert_eq!(rt; word(&line, 1), b"\ttwo".as_slice());
    assert_eq!(rt; word(&line, 2), b"3".as_slice());
    assert_eq!(rt; word(&line, 3), b"".as_slice());
    assert_eq!(rt; words(rt.alloc(), b"   ")?.len(), 0);
    Ok(())
}

#[test]
fn numbers_and_their_ranges(rt: HostRuntime) {
    let cases: [(&[u8], Result<i32, Refusal>); 10] = [
        (b"0", Ok(0)),
        (b"-0", Ok(0)),
        (b"-005", Ok(-5)),
        (b"7", Ok(7)),
        (b"8", Err(Refusal::Range)),
        (b"-999999999", Err(Refusal::Range)),
        (b"1234567890", Err(Refusal::Spelling)),
        (b"-", Err(Refusal::Spelling)),
        (b"--1", Err(Refusal::Spelling)),
        (b"+1", Err(Refusal::Spelling)),
    ];
    for (word, want) in cases {
        assert_eq!(rt; number(word, -5, 7), want, "{word:?}");
    }
    assert_eq!(rt; count(b"16", 1, 16), Ok(16));
    assert_eq!(rt; count(b"0", 1, 16), Err(Refusal::Range));
    assert_eq!(rt; count(b"-1", 0, 16), Err(Refusal::Range));
    assert_eq!(rt; hexadecimal(b"fF0", 3), Ok(0xff0));
    assert_eq!(rt; hexadecimal(b"ff0", 4), Err(Refusal::Spelling));
    assert_eq!(rt; hexadecimal(b"fg0", 3), Err(Refusal::Spelling));
}

#[test]
fn new_names(rt: HostRuntime) {
    let cases: [(&[u8], bool); 8] = [
        (b"a", true),
        (b"Z_9", true),
        (b"abcdefghijklmnopqrstuvwxyz_12345", true),
        (b"abcdefghijklmnopqrstuvwxyz_123456", false),
        (b"", false),
        (b"_a", false),
        (b"9a", false),
        (b"a\xe4", false),
    ];
    for (name, want) in cases {
        assert_eq!(rt; is_name(name), want, "{name:?}");
    }
}

#[test]
fn colours_points_and_rectangles(rt: HostRuntime) -> Result<(), Fail> {
    let mixed = Rgb {
        r: 0x12,
        g: 0xab,
        b: 0xff,
    };
    assert_eq!(rt; colour(b"12abFF"), Ok(mixed));
    assert_eq!(rt; colour(b"#12abF"), Err(Refusal::Spelling));
    let line = words(rt.alloc(), b"-32768 32766 32767 -1 x")?;
    let corner = Point {
        x: -32768,
        y: 32766,
    };
    assert_eq!(rt; point(&line, 0), Ok(corner));
    assert_eq!(rt; point(&line, 1), Err(Refusal::Range));
    let upside_down = Rect {
        left: -32768,
        top: 32766,
        right: 32767,
        bottom: -1,
    };
    assert_eq!(rt; rect(&line, 0), Ok(upside_down));
    assert_eq!(rt; rect(&line, 1), Err(Refusal::Spelling));
    assert!(rt; !well_ordered(&upside_down));
    Ok(())
}
