//! Scripts and what they ask.

use crate::reading::read_script;
use brush_obj::{BltCall, CopyCall, DrawCall, Hatch, PaintCall};
use geom_base::{Point, Rect, Size, Target};
use pix_format::{Format, Rgb};
use rop_mix::{Mix, Rop4};
use script_orders::{
    BrushOrder, BrushUse, DeskCommand, FaceOrder, Feed, Named, Script, ScriptCommand, Spot,
};
use std::alloc::Global;
use std::process::Abort;

/// A script with each command.
const SCRIPT: &str = "back 102030
brushorg -1 5
table two 010203 FFFFFF
bitmap mono 4 2 1 two
bitmap deep 3 5 555
brush dots pattern mono
back FFFFFF
brush lines hatch cross 010203 040506
blt deep 0 0 2 2 screen 1 1 mono 0 -1 lines b8AA
blt screen 0 0 2 2 mono 1 1 deep 0 -1 - cccc
copy screen -3 0 4 4 deep 7 8
paint mono 0 0 1 1 #0A0B0C 6
pixels deep 1 2 7FFF 0001
dump 0
sum deep
delete mono";

/// The rectangle of these edges.
fn rect(left: i32, top: i32, right: i32, bottom: i32) -> Rect {
    Rect {
        left,
        top,
        right,
        bottom,
    }
}

const WHITE: Rgb = Rgb {
    r: 255,
    g: 255,
    b: 255,
};

const DARK: Rgb = Rgb { r: 1, g: 2, b: 3 };

const SOLID: Rgb = Rgb {
    r: 10,
    g: 11,
    b: 12,
};

/// A source as two numbers: its kind, and its bitmap or the sum of its values.
fn feed(source: &Feed) -> (u32, u64) {
    match source {
        Feed::Nothing => (0, 0),
        Feed::Desk => (1, 0),
        Feed::Bitmap(number) => (2, u64::from(*number)),
        Feed::Row(values) => match values.items() {
            [first, second] => (3, u64::from(*first) * 65536 + u64::from(*second)),
            _ => (4, 0),
        },
    }
}

/// Target, call, source, mask and brush of a drawing.
type WantedDrawing = (Spot, DrawCall, (u32, u64), Option<u32>, BrushUse);

/// The drawings of the script, from its ninth command on.
fn drawings() -> [WantedDrawing; 5] {
    let mask = Point { x: 0, y: -1 };
    let two = rect(0, 0, 2, 2);
    let masked = blt(two, mask, 0xb8aa);
    let plain = blt(two, mask, 0xcccc);
    let moved = copy(rect(-3, 0, 4, 4), Point { x: 7, y: 8 });
    let mixed = paint(rect(0, 0, 1, 1), 6);
    let row = copy(rect(1, 2, 3, 3), Point { x: 0, y: 0 });
    let none = BrushUse::Nothing;
    let solid = BrushUse::Colour(SOLID);
    [
        (Spot::Bitmap(1), masked, (1, 0), Some(0), BrushUse::Made(1)),
        (Spot::Desk, plain, (2, 0), None, none),
        (Spot::Desk, moved, (2, 1), None, none),
        (Spot::Bitmap(0), mixed, (0, 0), None, solid),
        (Spot::Bitmap(1), row, (3, 0x7fff_0001), None, none),
    ]
}

/// The script's own origin.
const ORIGIN: Point = Point { x: -1, y: 5 };

fn blt(rect: Rect, mask: Point, code: u16) -> DrawCall {
    DrawCall::Blt(BltCall {
        target: Target::Screen,
        rect,
        held: None,
        src: Point { x: 1, y: 1 },
        mask,
        origin: ORIGIN,
        rop: Rop4::of(code),
    })
}

fn copy(rect: Rect, src: Point) -> DrawCall {
    DrawCall::Copy(CopyCall {
        target: Target::Screen,
        rect,
        held: None,
        src,
    })
}

fn paint(rect: Rect, mix: u8) -> DrawCall {
    match Mix::of(mix) {
        Some(mix) => DrawCall::Paint(PaintCall {
            target: Target::Screen,
            rect,
            origin: ORIGIN,
            mix,
        }),
        None => copy(rect, ORIGIN),
    }
}

/// A script that is read whole.
fn taken(rt: &impl Abort, alloc: Global, text: &'static str) -> Script<'static> {
    match read_script(alloc, text.as_bytes(), 1) {
        Ok(script) => script,
        Err(_) => panic!(rt; "refused"),
    }
}

#[test]
fn drawings_of_a_script(rt: HostRuntime) {
    let script = taken(&rt, rt.alloc(), SCRIPT);
    let wanted = drawings();
    for i in 0..wanted.len() {
        let (target, call, source, mask, brush) = wanted[i];
        match script.commands().get(i + 8) {
            Some(ScriptCommand::Draw(drawing)) => {
                assert_eq!(rt; drawing.target, target, "drawing {i}");
                assert_eq!(rt; drawing.call, call, "drawing {i}");
                assert_eq!(rt; feed(&drawing.source), source, "drawing {i}");
                assert_eq!(rt; drawing.mask, mask, "drawing {i}");
                assert_eq!(rt; drawing.brush, brush, "drawing {i}");
                assert_eq!(rt; drawing.back, WHITE, "drawing {i}");
            }
            _ => panic!(rt; "drawing {i}"),
        }
    }
}

/// A script whose drawings have other clips.
const CLIPPED: &str = "bitmap mono 4 2 1
region two rects 4 0 6 2 0 0 2 2
region empty rects
paint mono 0 0 1 1 #000000 13
clip two
paint mono 0 0 1 1 #000000 13
copy screen 0 0 1 1 mono 0 0
blt screen 0 0 1 1 - 0 0 - 0 0 - 5555
pixels mono 0 0 1
clip empty
paint screen 0 0 1 1 #000000 13
clip two
clip none
pixels mono 0 0 1";

/// The rectangles of a drawing's clip, if it has one.
fn clip(drawing: &DeskCommand) -> Option<&[Rect]> {
    match &drawing.clip {
        Some(named) => Some(named.region().rects()),
        None => None,
    }
}

#[test]
fn clips_of_drawings(rt: HostRuntime) {
    let script = taken(&rt, rt.alloc(), CLIPPED);
    let rects = [rect(0, 0, 2, 2), rect(4, 0, 6, 2)];
    let two = Some(rects.as_slice());
    let empty: Option<&[Rect]> = Some(&[]);
    let wanted = [
        (3, None),
        (5, two),
        (6, two),
        (7, two),
        (8, two),
        (10, empty),
        (13, None),
    ];
    for (i, rects) in wanted {
        match script.commands().get(i) {
            Some(ScriptCommand::Draw(drawing)) => {
                assert_eq!(rt; clip(drawing), rects, "drawing {i}");
            }
            _ => panic!(rt; "drawing {i}"),
        }
    }
}

/// The order that makes a bitmap, without its table, and the table.
fn created<'s>(script: &'s Script<'_>, i: usize) -> Option<(u32, Size, Format, &'s [Rgb])> {
    match script.commands().get(i) {
        Some(ScriptCommand::Create(order)) => Some((
            order.number,
            order.size,
            order.format,
            order.table.colours(),
        )),
        _ => None,
    }
}

#[test]
fn bitmaps_of_a_script(rt: HostRuntime) {
    let script = taken(&rt, rt.alloc(), SCRIPT);
    let colours = [DARK, WHITE];
    let mono = (0, Size { w: 4, h: 2 }, Format::B1, colours.as_slice());
    assert_eq!(rt; created(&script, 3), Some(mono));
    let none: &[Rgb] = &[];
    let deep = (1, Size { w: 3, h: 5 }, Format::B555, none);
    assert_eq!(rt; created(&script, 4), Some(deep));
    assert_eq!(rt; script.name(0), b"mono".as_slice());
    assert_eq!(rt; script.name(1), b"deep".as_slice());
    assert_eq!(rt; script.name(2), b"".as_slice());
    assert!(rt; matches!(script.commands().get(15), Some(ScriptCommand::Delete(0))));
    assert_eq!(rt; script.commands().len(), 16);
}

/// The order that makes a brush.
fn brush(script: &Script<'_>, i: usize) -> Option<BrushOrder> {
    match script.commands().get(i) {
        Some(ScriptCommand::Brush(order)) => Some(*order),
        _ => None,
    }
}

#[test]
fn brushes_and_texts_of_a_script(rt: HostRuntime) {
    let script = taken(&rt, rt.alloc(), SCRIPT);
    let dots = BrushOrder {
        number: 0,
        face: FaceOrder::Pattern { bitmap: 0 },
        back: Rgb {
            r: 16,
            g: 32,
            b: 48,
        },
    };
    let fore = Rgb { r: 4, g: 5, b: 6 };
    let lines = BrushOrder {
        number: 1,
        face: FaceOrder::Hatch(Hatch::Cross, DARK, fore),
        back: WHITE,
    };
    assert_eq!(rt; brush(&script, 5), Some(dots));
    assert_eq!(rt; brush(&script, 7), Some(lines));
    for i in [0, 1, 2, 6] {
        assert!(rt;
            matches!(script.commands().get(i), Some(ScriptCommand::Nothing)),
            "{i}"
        );
    }
    let commands = script.commands();
    assert!(rt;
        matches!(
            commands.get(13),
            Some(ScriptCommand::Dump(Named::Screen(0)))
        )
    );
    assert!(rt; matches!(commands.get(14), Some(ScriptCommand::Sum(Named::Bitmap(1)))));
}

#[test]
fn a_name_that_is_made_again(rt: HostRuntime) {
    let text = "bitmap b 1 1 8\ndelete b\nbitmap b 2 3 32\ndump b\ndelete b";
    let script = taken(&rt, rt.alloc(), text);
    let none: &[Rgb] = &[];
    let again = (1, Size { w: 2, h: 3 }, Format::B32, none);
    assert_eq!(rt; created(&script, 2), Some(again));
    let commands = script.commands();
    assert!(rt; matches!(commands.get(1), Some(ScriptCommand::Delete(0))));
    assert!(rt; matches!(commands.get(3), Some(ScriptCommand::Dump(Named::Bitmap(1)))));
    assert!(rt; matches!(commands.get(4), Some(ScriptCommand::Delete(1))));
}
