//! Whole calls, over sources and sinks in memory, and drivers over devices in memory.

use crate::flow::{Flow, SMOOTH};
use copy_port::Kind;
use ddi_driver::{DriverPort, disable, is_enabled, stats};
use desk_io::{MemSink, MemSource};
use desk_run::{InputRefusal, Status, run_desktop};
use dev_ports::MemLinear;
use drv_linear::LinearDriver;
use std::alloc::{AllocError, Global};
use std::test::Fail;

const CONFIG: &str =
    "[[screen]]\nkind = \"linear\"\nx = 0\ny = 0\nwidth = 4\nheight = 2\nformat = \"8\"\n%%\n";

const FIRST_SCRIPT: &str = "paint screen 1 0 3 2 #FF0000 13\ndump 0\n";

const FIRST_TEXT: &str = "dump 0 4 2 8\n00e0e000\n00e0e000\nend 2\n";

/// Scripts on the screen of the configuration, and their texts.
const SCRIPTS: [(&str, &str); 15] = [
    (FIRST_SCRIPT, FIRST_TEXT),
    (
        "brush red solid FF0000\npaint screen 1 0 3 2 red 13\nsum 0\n",
        "sum 0 0000002fc7b4c800\nend 3\n",
    ),
    ("dump 0\n", "dump 0 4 2 8\n00000000\n00000000\nend 1\n"),
    ("", "end 0\n"),
    (
        "paint screen 0 0 1 1 #120000 13\npaint screen 1 0 2 1 #130000 13\ndump 0",
        "dump 0 4 2 8\n00200000\n00000000\nend 3\n",
    ),
    (
        "paint screen -9 1 32767 32767 #FFFFFF 13\ndump 0",
        "dump 0 4 2 8\n00000000\nffffffff\nend 2\n",
    ),
    (
        "bitmap t 4 1 8\npixels t 0 0 0a 0b 0c 0d\ncopy t 1 0 4 1 t 0 0\ndump t",
        "dump t 4 1 8\n0a0a0b0c\nend 4\n",
    ),
    (
        "bitmap s 2 1 8\npixels s 0 0 ff 00\nbitmap m 2 1 1\ncopy m 0 0 2 1 s 0 0\ndump m",
        "dump m 2 1 1\n10\nend 5\n",
    ),
    (
        "table g 000000 00FF00\nbitmap m 2 1 1 g\npixels m 0 0 0 1\ncopy screen 0 0 2 1 m 0 0\ndump 0",
        "dump 0 4 2 8\n001c0000\n00000000\nend 5\n",
    ),
    (
        "bitmap t 3 1 8\npixels t 0 0 01 02 03\nbitmap k 2 1 1\npixels k 0 0 1 0\nblt t 1 0 3 1 t 0 0 k 0 0 - AACC\n\
         dump t\nbrush b pattern t\npaint screen 0 0 4 2 b 13\ndump 0",
        "dump t 3 1 8\n010103\ndump 0 4 2 8\n01010301\n01010301\nend 9\n",
    ),
    (
        "bitmap b 2 1 24\ndelete b\nbitmap b 3 1 4\npixels b -1 0 7 8 9 a b\npixels b 0 1 1\ndump b",
        "dump b 3 1 4\n89a\nend 6\n",
    ),
    (
        "region a rects 0 0 2 2\nregion b xor a a\nclip b\npaint screen 0 0 4 2 #FFFFFF 13\ndump 0",
        "dump 0 4 2 8\n00000000\n00000000\nend 5\n",
    ),
    (
        "bitmap t 4 4 8\npixels t 0 0 00 01 02 03\npixels t 0 1 10 11 12 13\npixels t 0 2 20 21 22 23\n\
         pixels t 0 3 30 31 32 33\nregion r rects 0 0 2 4 0 2 4 4\nclip r\ncopy t 0 1 3 4 t 1 0\ndump t",
        "dump t 4 4 8\n00010203\n01021213\n11121323\n21222333\nend 9\n",
    ),
    (
        "region r rects -9 1 2 9 3 0 4 1\nclip r\npaint screen 0 0 4 2 #FFFFFF 13\nclip none\npaint screen 0 0 1 1 #FFFFFF 13\ndump 0",
        "dump 0 4 2 8\nff0000ff\nffff0000\nend 6\n",
    ),
    (
        "bitmap t 4 1 8\nregion r rects 0 0 1 1 2 0 3 1\nclip r\npixels t -1 0 09 01 02 03 04 05\ndump t",
        "dump t 4 1 8\n01000300\nend 5\n",
    ),
];

/// The one word of a call.
fn words(alloc: Global, word: &str) -> Result<Vec<String>, AllocError> {
    let mut words = Vec::new(alloc);
    words.push(String::from_str(alloc, word)?)?;
    Ok(words)
}

/// A source of bytes.
fn source(alloc: Global, bytes: Vec<u8>, flow: Flow) -> Result<MemSource, AllocError> {
    Ok(MemSource::new(alloc, bytes, flow.step, vec![in alloc; flow.fails]?))
}

/// A sink of so few bytes a call.
fn sink(alloc: Global, flow: Flow) -> Result<MemSink, AllocError> {
    MemSink::new(alloc, 4096, flow.step, vec![in alloc; flow.fails]?)
}

/// The configuration and a script.
fn input(alloc: Global, script: &str) -> Result<Vec<u8>, AllocError> {
    let mut bytes = Vec::from_slice(alloc, CONFIG.as_bytes())?;
    bytes.extend_from_slice(script.as_bytes())?;
    Ok(bytes)
}

/// Scripts on a shelf of one driver, which is disabled after each.
#[test]
fn scripts_and_their_texts(rt: HostRuntime) -> Result<(), Fail> {
    let alloc = rt.alloc();
    let mut shelf = Vec::new(alloc);
    let driver = LinearDriver::new(alloc, MemLinear::new(alloc));
    shelf.push(DriverPort::new(Box::new(alloc, driver)?))?;
    let run = words(alloc, "run")?;
    for (script, want) in SCRIPTS {
        let mut from = source(alloc, input(alloc, script)?, SMOOTH)?;
        let mut to = sink(alloc, SMOOTH)?;
        let status = run_desktop(alloc, &run, &mut from, &mut shelf, &mut to);
        assert_eq!(rt; status, Status::Done, "{script:?}");
        assert_eq!(rt; to.written(), want.as_bytes(), "{script:?}");
        for driver in &mut shelf {
            disable(driver);
        }
    }
    Ok(())
}

#[test]
fn faults_of_streams(rt: HostRuntime) -> Result<(), Fail> {
    let alloc = rt.alloc();
    let mut shelf = Vec::new(alloc);
    let driver = LinearDriver::new(alloc, MemLinear::new(alloc));
    shelf.push(DriverPort::new(Box::new(alloc, driver)?))?;
    let run = words(alloc, "run")?;
    // The step and the failing call of the source and of the sink, the status, and how much of the text is written.
    let cases = [
        (7, 2, 64, 0, Status::ReadFault, 0),
        (64, 0, 5, 2, Status::WriteFault, 5),
        (1, 0, 1, 0, Status::Done, 37),
        (1, 0, 1, 37, Status::WriteFault, 36),
    ];
    for (read_step, read_fails, write_step, write_fails, want, written) in cases {
        let bytes = input(alloc, FIRST_SCRIPT)?;
        let mut from = source(alloc, bytes, Flow::new(read_step, read_fails))?;
        let mut to = sink(alloc, Flow::new(write_step, write_fails))?;
        let status = run_desktop(alloc, &run, &mut from, &mut shelf, &mut to);
        assert_eq!(rt; status, want);
        assert_eq!(rt; to.written().len(), written);
        assert!(rt; FIRST_TEXT.as_bytes().starts_with(to.written()));
        for driver in &mut shelf {
            disable(driver);
        }
    }
    Ok(())
}

/// A shelf without a driver is short of one.
#[test]
fn refusals_and_their_texts(rt: HostRuntime) -> Result<(), Fail> {
    let alloc = rt.alloc();
    let mut shelf = Vec::new(alloc);
    let (kind, wanted, held) = (Kind::Linear, 1, 0);
    let cases = [
        (
            "run",
            "%% \n",
            Status::InputRefused(InputRefusal::Config { number: 10 }),
            "refused config 10\n",
        ),
        ("frob", "x", Status::Usage, "usage\n"),
        (
            "run",
            CONFIG,
            Status::ShelfShort { kind, wanted, held },
            "shelf linear 1 0\n",
        ),
    ];
    for (word, bytes, want, text) in cases {
        let called = words(alloc, word)?;
        let mut from = source(alloc, Vec::from_slice(alloc, bytes.as_bytes())?, SMOOTH)?;
        let mut to = sink(alloc, SMOOTH)?;
        let status = run_desktop(alloc, &called, &mut from, &mut shelf, &mut to);
        assert_eq!(rt; status, want, "{bytes:?}");
        assert_eq!(rt; to.written(), text.as_bytes(), "{bytes:?}");
    }
    Ok(())
}

/// A call is offered once where it has a point on the screen, and the engine draws nothing there. The driver stays enabled.
#[test]
fn drawings_are_offered(rt: HostRuntime) -> Result<(), Fail> {
    let alloc = rt.alloc();
    let mut shelf = Vec::new(alloc);
    let driver = LinearDriver::new(alloc, MemLinear::new(alloc));
    shelf.push(DriverPort::new(Box::new(alloc, driver)?))?;
    let run = words(alloc, "run")?;
    let script =
        "paint screen 0 0 1 1 #FF0000 13\npaint screen 9 9 10 10 #FF0000 13\nbitmap b 2 1 8\n\
                  copy b 0 0 2 1 screen 0 0\ndump b\nsum 0\n";
    let mut from = source(alloc, input(alloc, script)?, SMOOTH)?;
    let mut to = sink(alloc, SMOOTH)?;
    let status = run_desktop(alloc, &run, &mut from, &mut shelf, &mut to);
    assert_eq!(rt; status, Status::Done);
    assert!(rt; to.written().starts_with(b"dump b 2 1 8\ne000\n"));
    for driver in &shelf {
        assert!(rt; is_enabled(driver));
        let stats = stats(driver);
        assert_eq!(rt; (stats.offered, stats.declined, stats.written), (1, 0, 0));
    }
    Ok(())
}
