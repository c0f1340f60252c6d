//! A whole script.

ghost use Rattle.std.specs.Prelude.{◌≡◌, ◌≤◌, ◌+◌, ◌<◌, ◌^◌, ◌++◌, All, IfOk, OnOk, length};
ghost use Rattle.std.specs.Option.{option_to_list};
ghost use Rattle.script_words.specs.Lines.{lines_of};
ghost use Rattle.script_orders.specs.Limits.{most_commands};
ghost use Rattle.script_orders.specs.Live.{CanRun, first_live};
ghost use Rattle.script_read.specs.InnerReading.{RefusesLine};
ghost use Rattle.script_read.specs.Reading.{Answers, number_of_refusal, read_lines};
ghost use Rattle.script_read.specs.State.{first_reader_state};

use crate::reader::Reader;
use crate::refusal::ScriptRefusal;
use script_orders::{Script, ScriptCommand};
use script_words::{ReadError, Refusal, first_line};
use std::alloc::{AllocError, Global};

/// The number of a refusal.
fn number_of_refusal(refusal: Refusal) -> u32
    ensures { result ≡ number_of_refusal refusal }
{
    match refusal {
        Refusal::UnknownCommand => 1,
        Refusal::WordCount => 2,
        Refusal::Spelling => 3,
        Refusal::Range => 4,
        Refusal::UnknownName => 5,
        Refusal::NameInUse => 6,
        Refusal::BadName => 7,
        Refusal::NotOrdered => 8,
        Refusal::OperandMissing => 9,
        Refusal::MaskNotMono => 10,
        Refusal::MaskIsTarget => 11,
        Refusal::PastLimit => 12,
        Refusal::RegionTooLarge => 13,
        Refusal::TooManyCommands => 14,
        Refusal::TableMisfit => 15,
    }
}

/// The refusal of a line.
fn refusal(line: u64, error: ReadError) -> ScriptRefusal
    ensures { RefusesLine result line error }
{
    match error {
        ReadError::NoMemory => ScriptRefusal::NoMemory,
        ReadError::Refused(refusal) => ScriptRefusal::Refused {
            line,
            number: number_of_refusal(refusal),
        },
    }
}

/// One more command, if any.
fn keep(commands: &mut Vec<ScriptCommand>, asked: Option<ScriptCommand>) -> Result<(), AllocError>
    ensures { OnOk result (commands.new.items ≡ commands.old.items ++ option_to_list asked) }
{
    if let Some(command) = asked {
        commands.push(command)?;
    }
    Ok(())
}

/// Reads a script whose first line has this number.
pub fn read_script<'a>(
    alloc: Global,
    text: &'a [u8],
    first: u64,
) -> Result<Script<'a>, ScriptRefusal>
    requires { first + length (lines_of text.now) < 2 ^ 64 }
    ensures value { Answers result (read_lines first 0 first_reader_state (lines_of text.now)) }
    ensures few { IfOk result (λ s. length s.commands ≤ most_commands) }
    ensures can { IfOk result (λ s. CanRun first_live s.commands) }
{
    let mut reader = match Reader::new(alloc) {
        Ok(reader) => reader,
        Err(_) => return Err(ScriptRefusal::NoMemory),
    };
    let mut commands = Vec::new(alloc);
    let mut number = first;
    let mut more = Some(text);
    while let Some(left) = more {
        let (line, after) = first_line(left);
        match reader.text_line(alloc, commands.len(), line) {
            Ok(asked) => match keep(&mut commands, asked) {
                Ok(()) => {}
                Err(_) => return Err(ScriptRefusal::NoMemory),
            },
            Err(error) => return Err(refusal(number, error)),
        }
        number += 1;
        more = after;
    }
    Ok(Script::of(commands, reader.made))
}
