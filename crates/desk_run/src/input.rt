//! A whole input: a configuration and a script.

ghost use Rattle.std.specs.Prelude.{◌≡◌, ◌≤◌, ◌<◌, ◌+◌, ◌^◌, length, IfOk};
ghost use Rattle.std.specs.Option.{option_copied};
ghost use Rattle.desk_run.specs.Input.{checked, AnswersInput, AnswersScript, script_of};
ghost use Rattle.script_words.specs.Lines.{lines_after};
ghost use Rattle.script_orders.specs.Asked.{IsSurfaceSize};
ghost use Rattle.script_orders.specs.Live.{CanRun, first_live};
ghost use Rattle.desk_run.specs.declared.config.DeskConfig.{DeskConfig};
ghost use Rattle.desk_run.specs.declared.input.InputError.TheVariants.{Refused, NoMemory};
ghost use Rattle.desk_io.specs.Sources.{most_bytes};

use crate::config::{DeskConfig, read_config};
use crate::status::InputRefusal;
use script_orders::Script;
use script_read::{ScriptRefusal, read_script};
use script_words::{FoundLine, find_line};
use std::alloc::{AllocError, Global};

/// What an input asks for.
#[derive(Drop)]
pub struct Input<'a> {
    pub config: DeskConfig,
    pub script: Script<'a>,
}

/// Why nothing is asked.
#[derive(Clone, Copy, Debug, PartialEq, Eq)]
pub enum InputError {
    Refused(InputRefusal),
    NoMemory,
}

impl From<InputRefusal> for InputError {
    ghost from_gives = { λ r e. e ≡ Refused r };

    fn from(refusal: InputRefusal) -> InputError {
        InputError::Refused(refusal)
    }
}

impl From<AllocError> for InputError {
    ghost from_gives = { λ _ e. e ≡ NoMemory };

    fn from(_e: AllocError) -> InputError {
        InputError::NoMemory
    }
}

/// What the lines behind a found line ask for.
#[tactic(auto, unfolding(script_read::specs::Reading::read_lines))]
fn read_lines<'a>(alloc: Global, found: FoundLine<'a>) -> Result<Script<'a>, InputError>
    requires { found.before + 2 + length (lines_after (option_copied found.after)) < 2 ^ 64 }
    ensures value { AnswersScript result (script_of (found.entry.before + 2) (lines_after (option_copied found.entry.after))) }
    ensures can { IfOk result (λ s. CanRun first_live s.commands) }
    ensures few { IfOk result (λ s. length s.commands ≤ 100000) }
{
    let text = match found.after {
        Some(text) => text,
        None => return Ok(Script::of(Vec::new(alloc), Vec::new(alloc))),
    };
    match read_script(alloc, text, found.before as u64 + 2) {
        Ok(script) => Ok(script),
        Err(ScriptRefusal::Refused { line, number }) => {
            Err(InputError::Refused(InputRefusal::Script { line, number }))
        }
        Err(ScriptRefusal::NoMemory) => Err(InputError::NoMemory),
    }
}

/// Reads an input, or says what is wrong with it.
#[tactic(auto, unfolding(crate::specs::Input::checked))]
pub fn read_input<'a>(alloc: Global, bytes: &'a [u8]) -> Result<Input<'a>, InputError>
    requires { length bytes.now ≤ most_bytes }
    ensures checked { AnswersInput result (checked bytes.now) }
    ensures size { IfOk result (λ i. IsSurfaceSize i.config.size) }
    ensures can { IfOk result (λ i. CanRun first_live i.script.commands) }
    ensures few { IfOk result (λ i. length i.script.commands ≤ 100000) }
{
    let found = match find_line(bytes, b"%%") {
        Some(found) => found,
        None => return Err(InputError::Refused(InputRefusal::Config { number: 10 })),
    };
    let config = read_config(alloc, bytes, found.before)?;
    let script = read_lines(alloc, found)?;
    Ok(Input { config, script })
}

#[cfg(test)]
mod tests {
    use super::*;
    use geom_base::Size;
    use std::test::Fail;

    const SCREEN: &str =
        "[[screen]]\nkind = \"linear\"\nx = 0\ny = 0\nwidth = 4\nheight = 2\nformat = \"8\"\n";

    #[test]
    fn commands_are_read_in_order(rt: HostRuntime) -> Result<(), Fail> {
        let alloc = rt.alloc();
        let text = format!(in alloc;
            "{SCREEN}%%\n# a comment\n  \nbrush b solid FF8000\npaint  screen 1 0 3 2 b 13 \r\ndump -0\nsum 0"
        )?;
        let input = read_input(alloc, text.as_bytes())?;
        assert_eq!(rt; input.config.size, Size { w: 4, h: 2 });
        assert_eq!(rt; input.script.commands().len(), 4);
        Ok(())
    }

    #[test]
    fn the_first_refusal_is_named(rt: HostRuntime) -> Result<(), Fail> {
        let alloc = rt.alloc();
        // What stands before and behind the screen, and the refusal: its line, or 0 for the configuration, and its number.
        let cases = [
            ("", "x%%\n", 0, 10),
            ("", "%%\r", 0, 10),
            ("", "\n%%\n", 0, 0),
            ("# a comment\n", "%%\n", 0, 0),
            ("", "%%\nframe", 9, 1),
            ("", "%%\nbrush a pattern", 9, 2),
            ("", "%%\npaint screen 1 0", 9, 2),
            ("", "%%\npaint screen 0 0 1 1 #FF000 17", 9, 3),
            ("", "%%\r\n#\ndump 1\ndump x", 10, 4),
            ("", "%%\npaint none 0 0 1 1 #FF0000 13", 9, 5),
            ("", "%%\ntable none 000000 G", 9, 6),
            ("", "%%\nbrush 1 solid G", 9, 7),
            ("", "%%\n\npaint screen 3 0 1 2 #FF0000 13", 10, 8),
        ];
        for (front, rest, line, number) in cases {
            let text = format!(in alloc; "{front}{SCREEN}{rest}")?;
            let bytes = text.as_bytes();
            assert!(rt; bytes.len() < 1000);
            let refusal = match read_input(alloc, bytes) {
                Err(InputError::Refused(InputRefusal::Script { line, number })) => (line, number),
                Err(InputError::Refused(InputRefusal::Config { number })) => (0, number),
                _ => (u64::MAX, 0),
            };
            assert_eq!(rt; refusal, (line, number), "at {rest}");
        }
        Ok(())
    }
}
