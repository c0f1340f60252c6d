//! Lines read one after the other.

ghost use Rattle.std.specs.Prelude.{All, ◌≡◌, ◌<◌, ◌≤◌, IfOk, IfSome, OnOk, length, map};
ghost use Rattle.script_words.specs.Bounds.{most_name_bytes};
ghost use Rattle.script_orders.specs.Limits.{most_names, most_brushes, most_tables, most_bitmaps, most_bitmap_pixels, most_region_rects};

use crate::drawings::{blt, copy, paint, pixels};
use crate::naming::{bitmap, brush, delete, table};
use crate::regions::region;
use crate::standard_tables::StandardTables;
use crate::verb::{Verb, fits_count, verb_of};
use geom_base::Point;
use pix_format::Rgb;
use script_names::{Entry, Names, clip, named};
use script_orders::{MOST_COMMANDS, NamedRegion, ScriptCommand};
use script_words::{ReadError, Refusal, colour, point, word, words};
use std::alloc::{AllocError, Global};

/// What is kept from line to line.
#[derive(Drop)]
pub struct Reader<'a> {
    pub(crate) names: Names<'a>,
    pub(crate) standard: StandardTables,
    /// How many names were made and are in use.
    pub(crate) live: u32,
    pub(crate) brushes: u32,
    pub(crate) tables: u32,
    /// How many bitmaps are in use, and how many pixels they have together.
    pub(crate) bitmaps: u32,
    pub(crate) pixels: u32,
    /// How many rectangles the named regions have together.
    pub(crate) rectangles: u32,
    /// The names of all bitmaps that were made.
    pub(crate) made: Vec<&'a [u8]>,
    pub(crate) origin: Point,
    pub(crate) clip: Option<NamedRegion>,
    pub(crate) back: Rgb,
    ghost few_names: { live ≤ most_names },
    ghost few_brushes: { brushes ≤ most_brushes },
    ghost few_tables: { tables ≤ most_tables },
    ghost few_bitmaps: { bitmaps ≤ most_bitmaps },
    ghost few_pixels: { pixels ≤ most_bitmap_pixels },
    ghost few_rectangles: { rectangles ≤ most_region_rects },
    ghost short_names: { All (λ w. length w.now ≤ most_name_bytes) made.items },
}

impl<'a> Reader<'a> {
    ghost use Rattle.std.specs.Option.{option_to_list};
    ghost use Rattle.script_orders.specs.Limits.{most_commands};
    ghost use Rattle.script_read.specs.InnerReading.{ReadsLine, ReadsTextLine, state_of};
    ghost use Rattle.script_read.specs.State.{first_reader_state};
    ghost use Rattle.script_read.specs.Reading.{read_text_line};
    ghost use Rattle.script_names.specs.Names.{name_of_entry};
    ghost use Rattle.script_read.specs.Commands.{with_kept, meaning_of, read_back, read_brushorg, read_clip, read_dump, read_line, read_sum};

    /// What is known before the first line.
    pub fn new(alloc: Global) -> Result<Reader<'a>, AllocError>
        ensures { IfOk result (λ r. state_of r ≡ first_reader_state) }
    {
        let mut names = Names::new(alloc);
        names.insert(b"screen".as_slice(), Entry::Screen)?;
        names.insert(b"none".as_slice(), Entry::NoClip)?;
        Ok(Reader {
            names,
            standard: StandardTables::new(alloc)?,
            live: 0,
            brushes: 0,
            tables: 0,
            bitmaps: 0,
            pixels: 0,
            rectangles: 0,
            made: Vec::new(alloc),
            origin: Point { x: 0, y: 0 },
            clip: None,
            back: Rgb {
                r: 255,
                g: 255,
                b: 255,
            },
        })
    }

    /// What a line asks, if anything, after so many commands.
    #[tactic(auto, unfolding(crate::specs::Reading::read_text_line))]
    pub fn text_line(
        &mut self,
        alloc: Global,
        commands: usize,
        line: &'a [u8],
    ) -> Result<Option<ScriptCommand>, ReadError>
        requires { length self.old.made.items ≤ commands }
        ensures value { ReadsTextLine result (state_of self.new) (read_text_line commands (state_of self.old) line.now) }
        ensures few { IfOk result (λ asked. IfSome asked (λ _. commands < most_commands)) }
    {
        if line.first() == Some(&b'#') {
            return Ok(None);
        }
        let words = words(alloc, line)?;
        if words.is_empty() {
            return Ok(None);
        }
        let command = self.line(alloc, commands, &words)?;
        Ok(Some(command))
    }

    /// One more name in use.
    pub(crate) fn keep_name(&mut self, name: &'a [u8], what: Entry) -> Result<(), AllocError>
        requires { self.old.live < most_names }
        ensures { OnOk result (state_of self.new ≡ with_kept name.now (name_of_entry what) (state_of self.old)) }
    {
        self.names.insert(name, what)?;
        self.live += 1;
        Ok(())
    }

    /// The clip in force, with one owner more.
    pub(crate) fn shared_clip(&self) -> Result<Option<NamedRegion>, AllocError>
        ensures { IfOk result (λ c. c ≡ (state_of self.now).clip) }
    {
        match &self.clip {
            Some(region) => Ok(Some(region.shared()?)),
            None => Ok(None),
        }
    }

    /// back C
    #[tactic(auto, unfolding(crate::specs::Commands::read_back))]
    fn set_back(&mut self, words: &[&[u8]]) -> Result<ScriptCommand, ReadError>
        ensures value { ReadsLine result (state_of self.new) (read_back (state_of self.old) (map (λ w. w.now) words.now)) }
    {
        self.back = colour(word(words, 1))?;
        Ok(ScriptCommand::Nothing)
    }

    /// brushorg X Y
    #[tactic(auto, unfolding(crate::specs::Commands::read_brushorg))]
    fn set_origin(&mut self, words: &[&[u8]]) -> Result<ScriptCommand, ReadError>
        ensures value { ReadsLine result (state_of self.new) (read_brushorg (state_of self.old) (map (λ w. w.now) words.now)) }
    {
        self.origin = point(words, 1)?;
        Ok(ScriptCommand::Nothing)
    }

    /// clip NAME
    #[tactic(auto, unfolding(crate::specs::Commands::read_clip))]
    fn set_clip(&mut self, words: &[&[u8]]) -> Result<ScriptCommand, ReadError>
        ensures value { ReadsLine result (state_of self.new) (read_clip (state_of self.old) (map (λ w. w.now) words.now)) }
    {
        self.clip = clip(&self.names, word(words, 1))?;
        Ok(ScriptCommand::Nothing)
    }

    /// dump X
    #[tactic(auto, unfolding(crate::specs::Commands::read_dump))]
    fn dump(&self, words: &[&[u8]]) -> Result<ScriptCommand, ReadError>
        ensures value { ReadsLine result (state_of self.now) (read_dump (state_of self.now) (map (λ w. w.now) words.now)) }
    {
        let surface = named(&self.names, word(words, 1))?;
        Ok(ScriptCommand::Dump(surface))
    }

    /// sum X
    #[tactic(auto, unfolding(crate::specs::Commands::read_sum))]
    fn sum(&self, words: &[&[u8]]) -> Result<ScriptCommand, ReadError>
        ensures value { ReadsLine result (state_of self.now) (read_sum (state_of self.now) (map (λ w. w.now) words.now)) }
    {
        let surface = named(&self.names, word(words, 1))?;
        Ok(ScriptCommand::Sum(surface))
    }

    /// One line: the number of commands is asked first, then the command, the number of words, and the words.
    #[tactic(auto, unfolding(crate::specs::Commands::read_line))]
    fn line(
        &mut self,
        alloc: Global,
        commands: usize,
        words: &[&'a [u8]],
    ) -> Result<ScriptCommand, ReadError>
        requires { length self.old.made.items ≤ commands }
        ensures value { ReadsLine result (state_of self.new) (read_line commands (state_of self.old) (map (λ w. w.now) words.now)) }
        ensures few { IfOk result (λ _. commands < most_commands) }
    {
        if commands >= MOST_COMMANDS {
            return Err(ReadError::Refused(Refusal::TooManyCommands));
        }
        let verb = verb_of(word(words, 0))?;
        if !fits_count(verb, words) {
            return Err(ReadError::Refused(Refusal::WordCount));
        }
        self.meaning(alloc, verb, words)
    }

    /// The meaning of a line of a command.
    fn meaning(
        &mut self,
        alloc: Global,
        verb: Verb,
        words: &[&'a [u8]],
    ) -> Result<ScriptCommand, ReadError>
        requires words { 2 ≤ length words.now }
        requires row { verb ≡ Verb.Pixels → 4 ≤ length words.now }
        requires form { verb ≡ Verb.Region → 3 ≤ length words.now }
        requires few { length self.old.made.items < most_commands }
        ensures value { ReadsLine result (state_of self.new) (meaning_of verb (state_of self.old) (map (λ w. w.now) words.now)) }
    {
        match verb {
            Verb::Back => self.set_back(words),
            Verb::Bitmap => bitmap(self, words),
            Verb::Blt => blt(self, words),
            Verb::Brush => brush(self, words),
            Verb::Brushorg => self.set_origin(words),
            Verb::Clip => self.set_clip(words),
            Verb::Copy => copy(self, words),
            Verb::Delete => delete(self, words),
            Verb::Dump => self.dump(words),
            Verb::Paint => paint(self, words),
            Verb::Pixels => pixels(self, alloc, words),
            Verb::Region => region(self, alloc, words),
            Verb::Sum => self.sum(words),
            Verb::Table => table(self, alloc, words),
        }
    }
}
