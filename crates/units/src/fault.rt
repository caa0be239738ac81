// What ends a run: a line that cannot be read, or an input or output that fails.
ghost use Rattle.std.specs.Prelude.{◌≡◌, Some};
ghost use Rattle.units.specs.declared.fault.Expected.TheVariants.{Memory as noMemory};
ghost use Rattle.units.specs.Texts.{wanted};

use std::alloc::AllocError;
use std::{fmt, io};
use thiserror::Error;

// What a line should have had at the place where it went wrong.
#[derive(Clone, Copy, Debug)]
pub enum Expected {
    Command,
    Cipher,
    Key,
    Number,
    Input,
    Result,
    End,
    Memory,
}

// Written by hand, since the Display that thiserror derives promises no text.
impl fmt::Display for Expected {
    ghost output = { λ e. Some (wanted e) };

    fn fmt<W: fmt::Write>(&self, f: &mut fmt::Formatter<W>) -> fmt::Result {
        f.pad(match self {
            Expected::Command => "block, block-back, unit or unit-back",
            Expected::Cipher => "aes256 or speck",
            Expected::Key => "KEY in hex",
            Expected::Number => "NUMBER, a decimal number below 2^64",
            Expected::Input => "IN in hex",
            Expected::Result => "EXPECTED in hex",
            Expected::End => "nothing after EXPECTED",
            Expected::Memory => "more memory",
        })
    }
}

// Written by hand, since a derived From does not say which error it makes.
impl From<AllocError> for Expected {
    ghost from_gives = { λ _ r. r ≡ noMemory };

    fn from(_e: AllocError) -> Expected {
        Expected::Memory
    }
}

#[derive(Debug, Drop, Error)]
pub enum Fault {
    #[error("line {0}: expected {1}")]
    Line(u64, Expected),
    #[error(transparent)]
    Io(#[from] io::Error),
}
