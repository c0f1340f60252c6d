//! Scripts and their first refusal, if any.

use crate::reading::read_script;
use crate::refusal::ScriptRefusal;
use std::alloc::{AllocError, Global};
use std::test::Fail;

/// Names that a line may use.
const NAMES: &str =
    "bitmap mono 4 2 1\nbitmap grey 4 2 4\nbitmap wide 65 1 8\ntable two 000000 FFFFFF\nbrush red solid FF0000\n";

/// Lines behind these names, and the number of each refusal; 0 where the line is taken.
const LINES: [(&str, u32); 116] = [
    ("frame", 1),
    ("Paint screen 0 0 1 1 red 13", 1),
    (" # no comment", 1),
    ("back\t000000", 1),
    ("back", 2),
    ("back 000000 0", 2),
    ("bitmap b 1 1", 2),
    ("bitmap b 1 1 1 two 0", 2),
    ("blt screen 0 0 1 1 - 0 0 - 0 0 -", 2),
    ("blt screen 0 0 1 1 - 0 0 - 0 0 - AAAA 0", 2),
    ("brush b", 2),
    ("brush b solid", 2),
    ("brush 1 hatch cross 000000", 2),
    ("brush b pattern mono mono", 2),
    ("brushorg 0", 2),
    ("clip", 2),
    ("clip none none", 2),
    ("clip nothing screen", 2),
    ("copy screen 0 0 1 1 mono 0", 2),
    ("delete", 2),
    ("delete mono grey", 2),
    ("dump", 2),
    ("paint screen 0 0 1 1 red", 2),
    ("pixels mono 0 0", 2),
    ("sum 0 0", 2),
    ("table t 000000", 2),
    ("table mono 000000 000000 000000", 2),
    ("back FF00", 3),
    ("back GG0000", 3),
    ("bitmap b 1x 0 8", 3),
    ("bitmap b 1 1 16", 3),
    ("blt screen 0 0 1 1 - 0 0 - 0 0 - AAA", 3),
    ("blt screen 1 0 0 1 - 0 0 - 0 0 #00000 AAAA", 3),
    ("brush b striped", 3),
    ("brush b striped 1 2 3 4 5", 3),
    ("brush b solid 12345", 3),
    ("brush b hatch zigzag 000000 FFFFFF", 3),
    ("brush b hatch cross 000000 FFFFF", 3),
    ("brushorg 0 1234567890", 3),
    ("brushorg - 32767", 3),
    ("copy screen 0 0 1 - nothing 0 0", 3),
    ("dump -", 3),
    ("sum #", 3),
    ("paint screen 0 0 1 1 #00000 0", 3),
    ("paint screen 0 0 1 1 red x", 3),
    ("pixels mono 0 0 2", 3),
    ("pixels mono 0 0 1 11", 3),
    ("pixels grey 0 0 0F", 3),
    ("pixels wide 0 0 F", 3),
    ("table t 000000 00000", 3),
    ("bitmap b 0 1 8", 4),
    ("bitmap b 1 4097 9", 4),
    ("blt screen 0 0 32768 1 x 0 0 - 0 0 - AAAA", 4),
    ("brushorg 32767 0", 4),
    ("copy screen 0 0 1 1 mono 0 -32769", 4),
    ("dump 1", 4),
    ("sum -1", 4),
    ("paint screen 1 0 0 1 red 0", 4),
    ("paint screen 0 0 1 1 red 17", 4),
    ("pixels mono 0 32767 2", 4),
    ("bitmap b 1 1 1 red", 5),
    ("blt none 32768 0 1 1 - 0 0 - 0 0 - AAAA", 5),
    ("blt screen 1 0 0 1 red 0 0 - 0 0 - AAAA", 5),
    ("blt screen 0 0 1 1 - 0 0 screen 0 0 - AAAA", 5),
    ("blt screen 0 0 1 1 - 0 0 - 0 0 mono AAAA", 5),
    ("brush b pattern screen", 5),
    ("brush b pattern two", 5),
    ("clip nothing", 5),
    ("clip screen", 5),
    ("clip mono", 5),
    ("clip red", 5),
    ("clip two", 5),
    ("clip -", 5),
    ("clip NONE", 5),
    ("copy screen 0 0 1 1 - 0 0", 5),
    ("delete red", 5),
    ("delete screen", 5),
    ("dump Mono", 5),
    ("sum screen", 5),
    ("paint two 0 0 1 1 red 13", 5),
    ("paint screen 0 0 1 1 - 0", 5),
    ("pixels screen 0 0 00", 5),
    ("blt screen 0 0 1 1 red2 0 0 - 0 0 - AAAA", 5),
    ("bitmap screen 0 1 8", 6),
    ("brush none striped", 6),
    ("table mono 00000 000000", 6),
    ("bitmap 1b 0 1 8", 7),
    ("brush - striped", 7),
    ("table b! 00000 000000", 7),
    ("brush aaaaaaaaaaaaaaaaaaaaaaaaaaaaaaaaa solid 000000", 7),
    ("blt screen 1 0 0 1 - 0 0 - 0 0 - CCCC", 8),
    ("copy screen 0 1 1 0 mono 0 0", 8),
    ("paint screen 0 1 0 0 red 13", 8),
    ("blt screen 0 0 1 1 - 0 0 - 0 0 - CCCC", 9),
    ("blt screen 0 0 1 1 - 0 0 - 0 0 - F0F0", 9),
    ("blt screen 0 0 1 1 mono 0 0 - 0 0 - AACC", 9),
    ("blt screen 0 0 1 1 - 0 0 grey 0 0 - AACC", 9),
    ("blt screen 0 0 1 1 mono 0 0 grey 0 0 - AACC", 10),
    ("blt grey 0 0 1 1 mono 0 0 grey 0 0 - AACC", 10),
    ("blt mono 0 0 1 1 grey 0 0 mono 0 0 - AACC", 11),
    ("bitmap b 4096 1025 8", 12),
    ("brush b pattern wide", 12),
    ("bitmap b 1 1 4 two", 15),
    ("bitmap b 4096 4096 8 two", 15),
    ("bitmap b 1 1 32 two", 15),
    ("blt mono 0 0 1 1 grey 0 0 mono 0 0 - CCCC", 0),
    ("blt screen 0 0 1 1 - 0 0 grey 0 0 - 5555", 0),
    ("brush aaaaaaaaaaaaaaaaaaaaaaaaaaaaaaaa solid 000000", 0),
    ("bitmap b 4096 1024 8", 0),
    ("bitmap b 1 1 1 two", 0),
    ("pixels grey 32766 -32768 f F", 0),
    ("  sum   -0 ", 0),
    ("brush b pattern mono", 0),
    ("clip none", 0),
    ("copy mono 0 0 0 0 mono 0 0", 0),
    ("paint mono -32768 -32768 32767 32767 red 16", 0),
];

/// Scripts, and the line and the number of their refusals; 0 and 0 where the script is taken.
const SCRIPTS: [(&str, u64, u32); 17] = [
    ("", 0, 0),
    ("\n\n", 0, 0),
    ("# back\n\n   \nback", 4, 2),
    ("dump 0\r", 1, 3),
    ("dump 0\r\n", 0, 0),
    ("dump 0\r\r\n", 1, 3),
    ("back 000000\r\nback 00000\nfrob", 2, 3),
    (
        "bitmap b 1 1 8\ndelete b\nbitmap b 1 1 8\ndelete b\nbrush b solid 000000\ndump b",
        6,
        5,
    ),
    ("bitmap b 1 1 8\ndelete b\ndelete b", 3, 5),
    (
        "bitmap b 1 1 8\nbitmap c 1 1 8\ndelete b\ndump c\ndump b",
        5,
        5,
    ),
    (
        "bitmap a 4096 1024 8\nbitmap b 4096 1024 8\nbitmap c 4096 1024 8\nbitmap d 4096 1024 8\nbitmap e 1 1 8",
        5,
        12,
    ),
    (
        "bitmap a 4096 1024 8\nbitmap b 4096 1024 8\nbitmap c 4096 1024 8\nbitmap d 4096 1024 8\ndelete b\nbitmap e 4096 1024 8\nbitmap f 1 1 8",
        7,
        12,
    ),
    ("bitmap a 1 1 8\nbrush a solid 000000", 2, 6),
    ("table t 000000 FFFFFF\nbitmap t 1 1 1 t", 2, 6),
    ("region r rects\nclip r\nclip none\nclip r", 0, 0),
    ("clip r\nregion r rects", 1, 5),
    ("region r rects 0 0 1 1\nclip R", 2, 5),
];

/// The line and the number of a refusal; 0 and 0 where there is none.
fn refusal(alloc: Global, text: &[u8]) -> (u64, u32) {
    match read_script(alloc, text, 1) {
        Ok(_) => (0, 0),
        Err(ScriptRefusal::Refused { line, number }) => (line, number),
        Err(ScriptRefusal::NoMemory) => (0, 99),
    }
}

#[test]
fn lines_that_are_refused_or_taken(rt: HostRuntime) -> Result<(), Fail> {
    let alloc = rt.alloc();
    for (line, number) in LINES {
        let text = format!(in alloc; "{NAMES}{line}")?;
        let want = if number == 0 { (0, 0) } else { (6, number) };
        assert_eq!(rt; refusal(alloc, text.as_bytes()), want, "{line:?}");
    }
    Ok(())
}

#[test]
fn scripts_that_are_refused_or_taken(rt: HostRuntime) {
    for (script, line, number) in SCRIPTS {
        assert_eq!(rt;
            refusal(rt.alloc(), script.as_bytes()),
            (line, number),
            "{script:?}"
        );
    }
}

/// So many numbered lines with these ends before and behind the number.
fn numbered(alloc: Global, count: u32, front: &str, rest: &str) -> Result<Vec<u8>, AllocError> {
    let mut text = Vec::new(alloc);
    for i in 0..count {
        let line = format!(in alloc; "{front}{i}{rest}\n")?;
        text.extend_from_slice(line.as_bytes())?;
    }
    Ok(text)
}

#[test]
fn how_many_of_a_kind(rt: HostRuntime) -> Result<(), Fail> {
    let alloc = rt.alloc();
    // The ends of a line, how many are taken, and the number of the refusal of one more.
    let cases = [
        ("brush b", " solid 000000", 1024, 12),
        ("table t", " 000000 FFFFFF", 256, 12),
        ("bitmap b", " 1 1 8", 4096, 12),
        ("#", "\nback 000000", 100_000, 14),
    ];
    for (front, rest, most, number) in cases {
        let text = numbered(alloc, most, front, rest)?;
        assert_eq!(rt; refusal(alloc, &text), (0, 0), "{front}");
        let text = numbered(alloc, most + 1, front, rest)?;
        let line = if number == 14 { 2 * most + 2 } else { most + 1 };
        assert_eq!(rt; refusal(alloc, &text), (u64::from(line), number), "{front}");
    }
    Ok(())
}
