//! A script that was read.

ghost use Rattle.std.specs.Prelude.{◌≡◌, ◌≤◌, [], length, slice_index_or};
ghost use Rattle.script_words.specs.Bounds.{most_name_bytes};

use crate::script_command::ScriptCommand;
use std::marker::Model;

/// The commands of a script in order, and the names of the bitmaps that it makes.
#[derive(Drop)]
pub struct Script<'a> {
    commands: Vec<ScriptCommand>,
    names: Vec<&'a [u8]>,
}

impl<'a> Model for Script<'a> {
    ghost use Rattle.std.specs.Prelude.{◌≤◌, All, length, map};
    ghost use Rattle.script_words.specs.Bounds.{most_name_bytes};
    ghost use Rattle.script_orders.specs.Asked.{Asked};

    ghost Value = { Asked };

    ghost view = { λ s. record { commands = s.commands.items; names = map (λ w. w.now) s.names.items } };

    ghost invariant = { λ s. All (λ w. length w.now ≤ most_name_bytes) s.names.items };
}

impl<'a> Script<'a> {
    ghost use Rattle.std.specs.Prelude.{All, map};

    /// These commands, and a name for each bitmap that they make, in order.
    pub fn of(commands: Vec<ScriptCommand>, names: Vec<&'a [u8]>) -> Script<'a>
        requires { All (λ w. length w.now ≤ most_name_bytes) names.items }
        ensures { result ≡ record { commands = commands.items; names = map (λ w. w.now) names.entry.items } }
    {
        Script { commands, names }
    }

    /// The commands in order.
    pub fn commands(&self) -> &[ScriptCommand]
        ensures { result.now ≡ self.now.commands }
    {
        self.commands.as_slice()
    }

    /// The name under which the bitmap of a number was made; no bytes where none was.
    pub fn name(&self, number: u32) -> &[u8]
        ensures name { result.now ≡ slice_index_or self.now.names number [] }
        ensures short { length result.now ≤ most_name_bytes }
    {
        match self.names.get(number as usize) {
            Some(name) => *name,
            None => &[],
        }
    }
}
