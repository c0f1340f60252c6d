//! The configuration of a desktop.

ghost use Rattle.std.specs.Prelude.{◌≡◌, IfOk, length, map, take};
ghost use Rattle.desk_run.specs.Config.{AnswersConfig, config_of, has_fixed_lines, mode_of, side_behind, side_of};
ghost use Rattle.ddi_driver.specs.Modes.{IsMode};
ghost use Rattle.desk_run.specs.Input.{IsSide};
ghost use Rattle.script_orders.specs.Asked.{IsSurfaceSize};
ghost use Rattle.script_words.specs.Lines.{lines_of};

use crate::input::InputError;
use crate::status::InputRefusal;
use bitflags::Flags;
use copy_port::{Classes, Hooks, Mode};
use geom_base::{Counts, MOST_SIDE, Size};
use pix_format::{ColourTable, Format};
use script_words::{decimal, first_lines, word};
use std::alloc::{AllocError, Global};

/// The desktop that an input asks for: one screen of format 8 at the desk's corner.
#[derive(Clone, Copy, Debug, PartialEq, Eq)]
pub struct DeskConfig {
    pub size: Size,
}

/// A configuration of other lines than those that can be had.
const OTHER_LINES: InputRefusal = InputRefusal::Config { number: 0 };

/// The bytes of a bank, the words of a ring, and the rows off screen, where a configuration doesn't say them.
const BANK: u32 = 65536;

const RING: u32 = 4096;

const SPARE: u32 = 256;

/// What the driver of the screen is enabled with: all calls are hooked, all classes taken, and no call of its device fails.
pub fn mode_of(alloc: Global, config: &DeskConfig) -> Result<Mode, AllocError>
    requires { IsSurfaceSize config.now.size }
    ensures mode { IfOk result (λ m. m ≡ mode_of config.now) }
    ensures fits { IfOk result (λ m. IsMode m) }
{
    Ok(Mode {
        size: config.size,
        format: Format::B8,
        table: ColourTable::standard(alloc, Format::B8)?,
        hooks: Hooks::all(),
        takes: Classes::all(),
        decline: 0,
        bank: BANK,
        ring: RING,
        spare: SPARE,
        pace: Counts::of(vec![in alloc; 1]?),
        faults: Counts::of(Vec::new(alloc)),
    })
}

/// A side of a screen.
fn side(digits: &[u8]) -> Result<u32, InputRefusal>
    ensures value { result ≡ side_of digits.now }
    ensures range { IfOk result IsSide }
{
    if digits.first() == Some(&b'0') {
        return Err(OTHER_LINES);
    }
    match decimal(digits) {
        Some(n) if 1 <= n && n <= MOST_SIDE => Ok(n),
        _ => Err(OTHER_LINES),
    }
}

/// The side that a line has behind a key.
fn keyed_side(line: &[u8], key: &[u8]) -> Result<u32, InputRefusal>
    ensures value { result ≡ side_behind key.now line.now }
    ensures range { IfOk result IsSide }
{
    match line.strip_prefix(key) {
        Some(digits) => side(digits),
        None => Err(OTHER_LINES),
    }
}

/// The lines that name no side.
fn fits_form(lines: &[&[u8]]) -> bool
    ensures { result ≡ has_fixed_lines (map (λ w. w.now) lines.now) }
{
    word(lines, 0) == b"[[screen]]".as_slice()
        && word(lines, 1) == b"kind = \"linear\"".as_slice()
        && word(lines, 2) == b"x = 0".as_slice()
        && word(lines, 3) == b"y = 0".as_slice()
        && word(lines, 6) == b"format = \"8\"".as_slice()
}

/// The configuration that these lines are.
#[tactic(auto, unfolding(crate::specs::Config::config_of))]
fn config(lines: &[&[u8]]) -> Result<DeskConfig, InputRefusal>
    ensures value { result ≡ config_of (map (λ w. w.now) lines.now) }
    ensures size { IfOk result (λ c. IsSurfaceSize c.size) }
{
    if !(lines.len() == 7 && fits_form(lines)) {
        return Err(OTHER_LINES);
    }
    let w = keyed_side(word(lines, 4), b"width = ")?;
    let h = keyed_side(word(lines, 5), b"height = ")?;
    if w * h > 4194304 {
        return Err(OTHER_LINES);
    }
    Ok(DeskConfig {
        size: Size { w, h },
    })
}

/// Reads a configuration of so many lines at the front of a text.
#[tactic(auto, using(crate::proofs::ConfigLemmas::eight_tell))]
pub fn read_config(alloc: Global, text: &[u8], count: usize) -> Result<DeskConfig, InputError>
    ensures value { AnswersConfig result (config_of (take count (lines_of text.now))) }
    ensures size { IfOk result (λ c. IsSurfaceSize c.size) }
{
    // The eighth line tells that there are more than seven.
    let lines = first_lines(alloc, text, count.min(8))?;
    Ok(config(&lines)?)
}
