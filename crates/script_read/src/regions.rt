//! The lines that make a region.

ghost use Rattle.std.specs.Prelude.{◌≡◌, ◌<◌, ◌≤◌, ◌+◌, IfOk, IsTrue, length, map, nat_le, if◌then◌else◌};
ghost use Rattle.std.specs.List.{All, list_all};
ghost use Rattle.geom_base.specs.Points.{is_in_some, moved_rect, RectMoves};
ghost use Rattle.region.specs.Limits.{most_rects};
ghost use Rattle.region.specs.Canonical.{Gives, canonical_rects};
ghost use Rattle.region.specs.Window.{Within};
ghost use Rattle.script_words.specs.Places.{is_well_ordered};
ghost use Rattle.script_words.specs.declared.refusal.Refusal.TheVariants.{PastLimit, RegionTooLarge};
ghost use Rattle.script_names.specs.Names.{names_of};
ghost use Rattle.script_read.specs.InnerReading.{FindsRegion, ReadsLine, state_of};
ghost use Rattle.script_names.specs.Fields.{operation_of};
ghost use Rattle.script_orders.specs.Limits.{most_region_rects};
ghost use Rattle.script_read.specs.Regions.{combined_in, distance_in, form_in, has_edges, listed_in, named_region_in, shift_in, shifted_in};
ghost use Rattle.script_read.specs.Commands.{has_room_for_rects, keep_region, read_region};

use crate::naming::has_room;
use crate::reader::Reader;
use geom_base::{Point, Rect};
use region::{Operation, Region, RegionRefusal};
use script_names::{Entry, Names, new_name, operation_named, rects};
use script_orders::{MOST_REGION_RECTS, NamedRegion, ScriptCommand};
use script_words::{GREATEST_NUMBER, ReadError, Refusal, number, well_ordered, word};
use std::alloc::Global;

/// A region, or why there is none; or a refusal of the line.
type Found = Result<Result<Region, RegionRefusal>, ReadError>;

/// All rectangles are well ordered.
fn are_well_ordered(rects: &[Rect]) -> bool
    ensures { result ≡ list_all is_well_ordered rects.now }
{
    rects.iter().all(|rect| well_ordered(rect))
}

/// rects [R ...]
fn listed(alloc: Global, words: &[&[u8]]) -> Found
    requires { 3 ≤ length words.now }
    ensures { FindsRegion result (listed_in (map (λ w. w.now) words.now)) }
{
    let rects = rects(alloc, words, 3)?;
    if !are_well_ordered(&rects) {
        return Err(ReadError::Refused(Refusal::NotOrdered));
    }
    Ok(Region::from_rects(alloc, &rects))
}

/// OP A B
fn operated(names: &Names<'_>, alloc: Global, by: Option<Operation>, words: &[&[u8]]) -> Found
    ensures { FindsRegion result (combined_in by (names_of names.now) (map (λ w. w.now) words.now)) }
{
    let Some(by) = by else {
        return Err(ReadError::Refused(Refusal::Spelling));
    };
    let a = names.region(word(words, 3))?;
    let b = names.region(word(words, 4))?;
    Ok(a.region().combined(alloc, by, b.region()))
}

/// Any number.
fn distance(word: &[u8]) -> Result<i32, Refusal>
    ensures { result ≡ distance_in word.now }
{
    number(word, -GREATEST_NUMBER, GREATEST_NUMBER)
}

/// DX DY
fn shift(words: &[&[u8]]) -> Result<Point, Refusal>
    ensures { result ≡ shift_in (map (λ w. w.now) words.now) }
{
    let x = distance(word(words, 4))?;
    let y = distance(word(words, 5))?;
    Ok(Point { x, y })
}

/// No edge leaves the coordinates.
fn can_shift(region: &Region, by: Point) -> bool
    ensures value { result ≡ list_all has_edges (map (λ r. moved_rect r by) region.now) }
    ensures within { IsTrue result → Within (map (λ r. moved_rect r by) region.now) }
    ensures can { IsTrue result → All (RectMoves by) region.now }
{
    region.can_offset(by)
}

/// offset A DX DY
fn shifted(names: &Names<'_>, alloc: Global, words: &[&[u8]]) -> Found
    ensures { FindsRegion result (shifted_in (names_of names.now) (map (λ w. w.now) words.now)) }
{
    let known = names.region(word(words, 3))?;
    let by = shift(words)?;
    let region = known.region();
    if !can_shift(region, by) {
        return Err(ReadError::Refused(Refusal::Range));
    }
    Ok(region.offset(alloc, by))
}

/// A form of the command, by the third word.
fn form(names: &Names<'_>, alloc: Global, words: &[&[u8]]) -> Found
    requires { 3 ≤ length words.now }
    ensures { FindsRegion result (form_in (names_of names.now) (map (λ w. w.now) words.now)) }
{
    let form = word(words, 2);
    if form == b"rects".as_slice() {
        listed(alloc, words)
    } else if form == b"offset".as_slice() {
        shifted(names, alloc, words)
    } else {
        operated(names, alloc, operation_named(form), words)
    }
}

/// NAME and a form.
fn named_region(names: &Names<'_>, alloc: Global, words: &[&[u8]]) -> Found
    requires { 3 ≤ length words.now }
    ensures { FindsRegion result (named_region_in (names_of names.now) (map (λ w. w.now) words.now)) }
{
    new_name(names, word(words, 1))?;
    form(names, alloc, words)
}

/// One more region of so many rectangles fits.
fn has_room_for_rects(reader: &Reader<'_>, count: u64) -> bool
    ensures value { result ≡ has_room_for_rects (state_of reader.now) count }
    ensures fits { IsTrue result → reader.now.rectangles + count ≤ most_region_rects }
{
    has_room(reader) && count <= u64::from(MOST_REGION_RECTS - reader.rectangles)
}

/// What is wrong with a region of too many rectangles.
fn excess(reader: &Reader<'_>, count: u64) -> Refusal
    ensures { result ≡ (if has_room_for_rects (state_of reader.now) count then RegionTooLarge else PastLimit) }
{
    if has_room_for_rects(reader, count) {
        Refusal::RegionTooLarge
    } else {
        Refusal::PastLimit
    }
}

/// One more region under a name, where it fits.
#[tactic(auto, unfolding(crate::specs::Commands::keep_region))]
fn keep_region<'a>(
    reader: &mut Reader<'a>,
    alloc: Global,
    name: &'a [u8],
    region: Region,
) -> Result<ScriptCommand, ReadError>
    requires within { Within region }
    requires few { length region ≤ most_rects }
    ensures value { ReadsLine result (state_of reader.new) (keep_region (state_of reader.old) name.now region) }
{
    let count = region.rects().len() as u32;
    if !has_room_for_rects(reader, u64::from(count)) {
        return Err(ReadError::Refused(Refusal::PastLimit));
    }
    let kept = NamedRegion::of(alloc, region)?;
    reader.keep_name(name, Entry::Region(kept))?;
    reader.rectangles += count;
    Ok(ScriptCommand::Nothing)
}

/// region NAME FORM ..
#[tactic(auto, unfolding(crate::specs::Commands::read_region))]
pub fn region<'a>(
    reader: &mut Reader<'a>,
    alloc: Global,
    words: &[&'a [u8]],
) -> Result<ScriptCommand, ReadError>
    requires { 3 ≤ length words.now }
    ensures value { ReadsLine result (state_of reader.new) (read_region (state_of reader.old) (map (λ w. w.now) words.now)) }
{
    match named_region(&reader.names, alloc, words)? {
        Ok(region) => keep_region(reader, alloc, word(words, 1), region),
        Err(RegionRefusal::TooMany(count)) => Err(ReadError::Refused(excess(reader, count))),
        Err(RegionRefusal::NoMemory) => Err(ReadError::NoMemory),
    }
}
