//! The names that are in use.

ghost use Rattle.std.specs.Prelude.{◌≡◌, IfOk, IfErr, OnOk, OnErr, Some, None, Ok, Err};
ghost use Rattle.std.specs.Option.{option_map};
ghost use Rattle.script_names.specs.Names.{name_of_entry, names_of, with_name, without_name};
ghost use Rattle.script_names.specs.Fields.{bitmap_in, region_in, table_of};

use crate::entry::{Bitmap, Entry};
use script_orders::{NamedRegion, SharedTable};
use script_words::Refusal;
use std::alloc::{AllocError, Global};
use std::collections::BTreeMap;

/// The names that are in use, and what each stands for.
#[derive(Drop)]
pub struct Names<'a> {
    map: BTreeMap<&'a [u8], Entry>,
}

impl<'a> Names<'a> {
    /// No names.
    pub fn new(alloc: Global) -> Names<'a>
        ensures { names_of result ≡ (λ w. None) }
    {
        Names {
            map: BTreeMap::new(alloc),
        }
    }

    /// What a word stands for, where it is a name in use.
    pub fn get(&self, word: &[u8]) -> Option<&Entry>
        ensures { option_map (λ x. name_of_entry x.now) result ≡ names_of self.now word.now }
    {
        self.map.get(word)
    }

    /// A bitmap.
    pub fn bitmap(&self, word: &[u8]) -> Result<Bitmap, Refusal>
        ensures { result ≡ bitmap_in (names_of self.now) word.now }
    {
        match self.get(word) {
            Some(Entry::Bitmap(bitmap)) => Ok(*bitmap),
            _ => Err(Refusal::UnknownName),
        }
    }

    /// A table.
    pub fn table(&self, word: &[u8]) -> Result<&SharedTable, Refusal>
        ensures ok { IfOk result (λ t. table_of (names_of self.now word.now) ≡ Ok t.now) }
        ensures err { IfErr result (λ e. table_of (names_of self.now word.now) ≡ Err e) }
    {
        match self.get(word) {
            Some(Entry::Table(table)) => Ok(table),
            _ => Err(Refusal::UnknownName),
        }
    }

    /// A region.
    pub fn region(&self, word: &[u8]) -> Result<&NamedRegion, Refusal>
        ensures ok { IfOk result (λ r. region_in (names_of self.now) word.now ≡ Ok r.now) }
        ensures err { IfErr result (λ e. region_in (names_of self.now) word.now ≡ Err e) }
    {
        match self.get(word) {
            Some(Entry::Region(region)) => Ok(region),
            _ => Err(Refusal::UnknownName),
        }
    }

    /// A name in use from here on, in place of what it stood for.
    pub fn insert(&mut self, word: &'a [u8], what: Entry) -> Result<(), AllocError>
        ensures ok { OnOk result (names_of self.new ≡ with_name word.now (name_of_entry what) (names_of self.old)) }
        ensures err { OnErr result (names_of self.new ≡ names_of self.old) }
    {
        self.map.insert(word, what)?;
        Ok(())
    }

    /// A name that is free from here on.
    pub fn remove(&mut self, word: &[u8])
        ensures { names_of self.new ≡ without_name word.now (names_of self.old) }
    {
        let _ = self.map.remove(word);
    }
}
