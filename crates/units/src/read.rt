// Reads a line: its words, and the task that they say.
ghost use Rattle.std.specs.Prelude.{◌≡◌, ◌≤◌, MatchResult};
ghost use Rattle.units.specs.declared.fault.Expected.TheVariants.{Command as noCommand, Cipher as noCipher, Number as noNumber};
ghost use Rattle.words.specs.Words.{InDecimal};
ghost use Rattle.units.specs.Words.{command_word, cipher_word, direction_of, input_place, Names, InHex, Missed};
ghost use Rattle.units.specs.Lines.{Extends, Unnumbered, Expects, Unexpected, Says, Wrong};

use crate::fault::Expected;
use crate::task::{CipherName, Direction, Extent, Task};
use hex_text::HexError;
use std::alloc::Global;
use std::str::FromStr;

// A task, and the bytes that should come of it where the line has them.
#[derive(Drop)]
pub struct Line {
    pub task: Task,
    pub expected: Option<Vec<u8>>,
}

#[derive(Clone, Copy)]
enum Command {
    Block(Direction),
    Unit(Direction),
}

impl FromStr for Command {
    type Err = Expected;

    ghost from_str_gives = { Names command_word noCommand };

    fn from_str(word: &str) -> Result<Command, Expected> {
        match word {
            "block" => Ok(Command::Block(Direction::Forward)),
            "block-back" => Ok(Command::Block(Direction::Back)),
            "unit" => Ok(Command::Unit(Direction::Forward)),
            "unit-back" => Ok(Command::Unit(Direction::Back)),
            _ => Err(Expected::Command),
        }
    }
}

impl FromStr for CipherName {
    type Err = Expected;

    ghost from_str_gives = { Names cipher_word noCipher };

    fn from_str(word: &str) -> Result<CipherName, Expected> {
        match word {
            "aes256" => Ok(CipherName::Aes256),
            "speck" => Ok(CipherName::Speck),
            _ => Err(Expected::Cipher),
        }
    }
}

fn bytes_of(heap: Global, word: &str, wanted: Expected) -> Result<Vec<u8>, Expected>
    ensures { MatchResult result (λ v. InHex word.now v.items) (λ e. Missed wanted (InHex word.now) e) }
{
    if word.is_empty() {
        return Err(wanted);
    }
    hex_text::decode(heap, word).map_err(|error| match error {
        HexError::Memory => Expected::Memory,
        _ => wanted,
    })
}

fn number_of(word: &str) -> Result<u64, Expected>
    ensures { MatchResult result (InDecimal word.now) (λ e. Missed noNumber (InDecimal word.now) e) }
{
    words::number(word).ok_or(Expected::Number)
}

impl Command {
    fn direction(self) -> Direction
        ensures { result ≡ direction_of self }
    {
        match self {
            Command::Block(direction) | Command::Unit(direction) => direction,
        }
    }

    // The place of IN, which comes after NUMBER where there is one.
    fn input_place(self) -> usize
        ensures { result ≡ input_place self }
    {
        match self {
            Command::Block(_) => 3,
            Command::Unit(_) => 4,
        }
    }

    fn extent(self, words: &[&str]) -> Result<Extent, Expected>
        ensures { MatchResult result (λ x. Extends self words.now x) (λ e. Unnumbered self words.now e) }
    {
        match self {
            Command::Block(_) => Ok(Extent::Block),
            Command::Unit(_) => number_of(words::at(words, 3)).map(Extent::Unit),
        }
    }
}

// What the line expects at a place, its last.
fn expected_at(heap: Global, words: &[&str], at: usize) -> Result<Option<Vec<u8>>, Expected>
    requires { at ≤ 5 }
    ensures { MatchResult result (λ o. Expects words.now at o) (λ e. Unexpected words.now at e) }
{
    if words.len() <= at {
        return Ok(None);
    }
    let bytes = bytes_of(heap, words::at(words, at), Expected::Result)?;
    if words.len() > at + 1 {
        return Err(Expected::End);
    }
    Ok(Some(bytes))
}

impl Line {
    // The task that the words say, and what they expect of it.
    pub fn read(heap: Global, words: &[&str]) -> Result<Line, Expected>
        ensures { MatchResult result (λ l. Says words.now l) (λ e. Wrong words.now e) }
    {
        let command: Command = words::at(words, 0).parse()?;
        let cipher = words::at(words, 1).parse()?;
        let key = bytes_of(heap, words::at(words, 2), Expected::Key)?;
        let extent = command.extent(words)?;
        let place = command.input_place();
        let input = bytes_of(heap, words::at(words, place), Expected::Input)?;
        let expected = expected_at(heap, words, place + 1)?;
        let task = Task {
            extent,
            direction: command.direction(),
            cipher,
            key,
            input,
        };
        Ok(Line { task, expected })
    }
}
