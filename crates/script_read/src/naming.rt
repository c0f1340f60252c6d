//! The lines that make a name or free one.

ghost use Rattle.std.specs.Prelude.{◌≡◌, ◌<◌, ◌≤◌, ◌+◌, ◌*◌, IfOk, IsTrue, OnOk, length, map};
ghost use Rattle.script_words.specs.Lines.{word_at};
ghost use Rattle.script_words.specs.Asking.{ReadsAs};
ghost use Rattle.script_words.specs.Bounds.{most_name_bytes};
ghost use Rattle.script_orders.specs.Limits.{most_bitmap_pixels, most_commands};
ghost use Rattle.script_names.specs.Names.{names_of};
ghost use Rattle.script_names.specs.Fields.{table_in};
ghost use Rattle.script_read.specs.InnerReading.{ReadsLine, state_of};
ghost use Rattle.script_read.specs.Commands.{has_room, has_room_for, create_in, keep_bitmap, read_bitmap, read_brush, read_delete, read_table};

use crate::reader::Reader;
use geom_base::{MOST_SIDE, Size};
use pix_format::{ColourTable, Format};
use script_names::{Bitmap, Entry, colours, face, format, new_name};
use script_orders::{
    BrushOrder, CreateOrder, MOST_BITMAP_PIXELS, MOST_BITMAPS, MOST_BRUSHES, MOST_NAMES,
    MOST_PIXELS, MOST_TABLES, ScriptCommand, SharedTable,
};
use script_words::{ReadError, Refusal, count, word};
use std::alloc::Global;

/// One more name fits.
pub fn has_room(reader: &Reader<'_>) -> bool
    ensures { result ≡ has_room (state_of reader.now) }
{
    reader.live < MOST_NAMES
}

/// table NAME C ..
#[tactic(auto, unfolding(crate::specs::Commands::read_table))]
pub fn table<'a>(
    reader: &mut Reader<'a>,
    alloc: Global,
    words: &[&'a [u8]],
) -> Result<ScriptCommand, ReadError>
    requires { 2 ≤ length words.now }
    ensures value { ReadsLine result (state_of reader.new) (read_table (state_of reader.old) (map (λ w. w.now) words.now)) }
{
    let name = word(words, 1);
    new_name(&reader.names, name)?;
    let colours = colours(alloc, words, 2)?;
    if !(has_room(reader) && reader.tables < MOST_TABLES) {
        return Err(ReadError::Refused(Refusal::PastLimit));
    }
    let table = SharedTable::of(alloc, ColourTable::of(alloc, &colours)?)?;
    reader.keep_name(name, Entry::Table(table))?;
    reader.tables += 1;
    Ok(ScriptCommand::Nothing)
}

/// brush NAME FORM ..
#[tactic(auto, unfolding(crate::specs::Commands::read_brush))]
pub fn brush<'a>(reader: &mut Reader<'a>, words: &[&'a [u8]]) -> Result<ScriptCommand, ReadError>
    ensures value { ReadsLine result (state_of reader.new) (read_brush (state_of reader.old) (map (λ w. w.now) words.now)) }
{
    let name = word(words, 1);
    new_name(&reader.names, name)?;
    let asked = face(&reader.names, words)?;
    if !(asked.fits && has_room(reader) && reader.brushes < MOST_BRUSHES) {
        return Err(ReadError::Refused(Refusal::PastLimit));
    }
    let number = reader.brushes;
    reader.keep_name(name, Entry::Brush(number))?;
    reader.brushes += 1;
    Ok(ScriptCommand::Brush(BrushOrder {
        number,
        face: asked.face,
        back: reader.back,
    }))
}

/// The table that a sixth word names, or the format's own where there is none.
fn table_of(reader: &Reader<'_>, words: &[&[u8]], format: Format) -> Result<SharedTable, ReadError>
    ensures { ReadsAs (λ t. t) result
        (table_in (names_of reader.now.names) (map (λ w. w.now) words.now) (length (map (λ w. w.now) words.now)) format) }
{
    let table = if words.len() == 6 {
        reader.names.table(word(words, 5))?
    } else {
        reader.standard.of(format)
    };
    Ok(table.shared()?)
}

/// NAME W H FORMAT [TABLE] of a bitmap line.
#[tactic(auto, unfolding(crate::specs::Commands::create_in))]
fn create(reader: &Reader<'_>, number: u32, words: &[&[u8]]) -> Result<CreateOrder, ReadError>
    ensures value { ReadsAs (λ o. o) result (create_in (names_of reader.now.names) number (map (λ w. w.now) words.now)) }
    ensures name { OnOk result (length (word_at (map (λ w. w.now) words.now) 1) ≤ most_name_bytes) }
{
    new_name(&reader.names, word(words, 1))?;
    let w = count(word(words, 2), 1, MOST_SIDE)?;
    let h = count(word(words, 3), 1, MOST_SIDE)?;
    let format = format(word(words, 4))?;
    let table = table_of(reader, words, format)?;
    if table.colours().len() != format.colours() {
        return Err(ReadError::Refused(Refusal::TableMisfit));
    }
    Ok(CreateOrder {
        number,
        size: Size { w, h },
        format,
        table,
    })
}

/// One more bitmap of a size fits.
fn has_room_for(reader: &Reader<'_>, size: Size) -> bool
    ensures value { result ≡ has_room_for (state_of reader.now) size }
    ensures fits { IsTrue result → reader.now.pixels + size.w * size.h ≤ most_bitmap_pixels }
{
    let pixels = u64::from(size.w) * u64::from(size.h);
    has_room(reader)
        && reader.bitmaps < MOST_BITMAPS
        && pixels <= MOST_PIXELS
        && u64::from(reader.pixels) + pixels <= MOST_BITMAP_PIXELS
}

/// One more bitmap under a name, where it fits.
#[tactic(auto, unfolding(crate::specs::Commands::keep_bitmap))]
fn keep_bitmap<'a>(
    reader: &mut Reader<'a>,
    name: &'a [u8],
    order: CreateOrder,
) -> Result<ScriptCommand, ReadError>
    requires { length name.now ≤ most_name_bytes }
    ensures value { ReadsLine result (state_of reader.new) (keep_bitmap (state_of reader.old) name.now order) }
{
    if !has_room_for(reader, order.size) {
        return Err(ReadError::Refused(Refusal::PastLimit));
    }
    let kept = Bitmap {
        number: order.number,
        size: order.size,
        format: order.format,
    };
    reader.keep_name(name, Entry::Bitmap(kept))?;
    reader.made.push(name)?;
    reader.bitmaps += 1;
    reader.pixels += order.size.w * order.size.h;
    Ok(ScriptCommand::Create(order))
}

/// bitmap NAME W H FORMAT [TABLE]
#[tactic(auto, unfolding(crate::specs::Commands::read_bitmap))]
pub fn bitmap<'a>(reader: &mut Reader<'a>, words: &[&'a [u8]]) -> Result<ScriptCommand, ReadError>
    requires { length reader.old.made.items < most_commands }
    ensures value { ReadsLine result (state_of reader.new) (read_bitmap (state_of reader.old) (map (λ w. w.now) words.now)) }
{
    let number = reader.made.len() as u32;
    let order = create(reader, number, words)?;
    keep_bitmap(reader, word(words, 1), order)
}

/// delete NAME
#[tactic(auto, unfolding(crate::specs::Commands::read_delete))]
pub fn delete(reader: &mut Reader<'_>, words: &[&[u8]]) -> Result<ScriptCommand, ReadError>
    ensures value { ReadsLine result (state_of reader.new) (read_delete (state_of reader.old) (map (λ w. w.now) words.now)) }
{
    let name = word(words, 1);
    let gone = reader.names.bitmap(name)?;
    reader.names.remove(name);
    reader.live = reader.live.saturating_sub(1);
    reader.bitmaps = reader.bitmaps.saturating_sub(1);
    let pixels = gone.size.w.saturating_mul(gone.size.h);
    reader.pixels = reader.pixels.saturating_sub(pixels);
    Ok(ScriptCommand::Delete(gone.number))
}
