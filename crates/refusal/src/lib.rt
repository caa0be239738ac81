// What a drive answers when it will not do what it was asked.
#![tactic(auto)]

ghost use Rattle.std.specs.Prelude.{◌≡◌, ◌++◌, Some, None, MatchResult, codes, decimal};
ghost use Rattle.refusal.specs.Numbers.{numbered, Named, NumbersDiffer};
ghost use Rattle.refusal.specs.Texts.{text as text_of};

use std::error::Error;
use std::fmt;

// Each case is named for what is wrong, and has the number that `numbered` in specs/Numbers.antt gives it.
#[derive(Clone, Copy, PartialEq, Eq, Debug)]
pub enum Refusal {
    WrongLength = 1,
    PowerOff = 2,
    OutOfRange = 3,
    InvalidTrailer = 4,
    UnfitKey = 5,
    WrongStage = 6,
    PermitOut = 7,
    SectorsLeft = 8,
    NothingLeft = 9,
}

// The number that stands for a refusal wherever a number is printed or returned.
impl From<Refusal> for u8 {
    ghost from_gives = { λ e n. n ≡ numbered e };

    fn from(refusal: Refusal) -> u8 {
        refusal as u8
    }
}

// A number that no refusal has. 0 is one: it stands for a call that is done.
#[derive(Clone, Copy, PartialEq, Eq, Debug)]
pub struct UnknownNumber(pub u8);

impl TryFrom<u8> for Refusal {
    type Error = UnknownNumber;

    ghost try_from_gives = { λ n r. MatchResult r (λ e. Named n (Some e)) (λ u. (u.0 ≡ n) × Named n None) };

    fn try_from(number: u8) -> Result<Refusal, UnknownNumber> {
        match number {
            1 => Ok(Refusal::WrongLength),
            2 => Ok(Refusal::PowerOff),
            3 => Ok(Refusal::OutOfRange),
            4 => Ok(Refusal::InvalidTrailer),
            5 => Ok(Refusal::UnfitKey),
            6 => Ok(Refusal::WrongStage),
            7 => Ok(Refusal::PermitOut),
            8 => Ok(Refusal::SectorsLeft),
            9 => Ok(Refusal::NothingLeft),
            _ => Err(UnknownNumber(number)),
        }
    }
}

impl fmt::Display for UnknownNumber {
    ghost output = { λ u. Some (codes "no refusal has the number " ++ decimal u.0) };

    fn fmt<W: fmt::Write>(&self, f: &mut fmt::Formatter<W>) -> fmt::Result {
        write!(f, "no refusal has the number {}", self.0)
    }
}

impl Error for UnknownNumber {}

impl Refusal {
    // The refusal in words, for people. Display prints it; but printing can fail, and promises nothing where it does.
    pub fn text(self) -> &'static str
        ensures { result.now ≡ text_of self }
    {
        match self {
            Refusal::WrongLength => "a buffer, unit, key or label has the wrong length",
            Refusal::PowerOff => "the power is off",
            Refusal::OutOfRange => "the sector number or the reach is out of range",
            Refusal::InvalidTrailer => "the trailer is not valid",
            Refusal::UnfitKey => "the key halves are equal, or the loaded keys do not fit",
            Refusal::WrongStage => "the permit's stage is not the trailer's",
            Refusal::PermitOut => "a permit is out",
            Refusal::SectorsLeft => "sectors are left to re-key",
            Refusal::NothingLeft => "no sector is left to re-key",
        }
    }
}

// Written by hand, since the Display that thiserror derives promises no text.
impl fmt::Display for Refusal {
    ghost output = { λ e. Some (text_of e) };

    fn fmt<W: fmt::Write>(&self, f: &mut fmt::Formatter<W>) -> fmt::Result {
        f.pad(self.text())
    }
}

impl Error for Refusal {}

// The theorem that no two refusals have one number: a number that is printed says which refusal it was.
pub fn numbers_differ()
    ensures { NumbersDiffer }
{}
