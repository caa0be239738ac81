// Bytes as hexadecimal text, and back.
#![tactic(auto)]

ghost use Rattle.std.specs.Prelude.{◌≡◌, ◌<◌, IfOk, string_bytes, MatchResult};
ghost use Rattle.std.specs.Option.{SomeIff};
ghost use Rattle.std.specs.Char.{digit_char};
ghost use Rattle.hex_text.specs.declared.HexError.TheVariants.{Memory as noMemory};
ghost use Rattle.hex_text.specs.Texts.{hex_text, HexDigit, pair_value, Spells};
ghost use Rattle.hex_text.specs.Errors.{Unfit};

use std::alloc::{AllocError, AllocFailed, Global};

// Why a text gives no bytes.
#[derive(Clone, Copy, PartialEq, Eq, Debug)]
pub enum HexError {
    OddLength,
    NoDigit,
    Memory,
}

// Both written by hand, since a derived From does not say which error it makes.
impl From<AllocError> for HexError {
    ghost from_gives = { λ _ r. r ≡ noMemory };

    fn from(_e: AllocError) -> HexError {
        HexError::Memory
    }
}

impl<T: Drop> From<AllocFailed<T>> for HexError {
    ghost from_gives = { λ _ r. r ≡ noMemory };

    fn from(_e: AllocFailed<T>) -> HexError {
        HexError::Memory
    }
}

fn digit(value: u8) -> char
    requires { value < 16 }
    ensures { result ≡ digit_char value }
{
    char::from_digit(u32::from(value), 16).unwrap()
}

// Two lower-case digits for each byte, the high one first.
pub fn encode(heap: Global, bytes: &[u8]) -> Result<String, AllocError>
    ensures text { IfOk result (λ s. string_bytes s ≡ hex_text bytes.now) }
    ensures back { IfOk result (λ s. Spells (string_bytes s) bytes.now) }
{
    let mut text = String::new(heap);
    for b in bytes {
        text.push(digit(*b / 16))?;
        text.push(digit(*b % 16))?;
    }
    Ok(text)
}

// The byte of two digits.
fn pair(high: u8, low: u8) -> Option<u8>
    ensures { SomeIff result (HexDigit high × HexDigit low) (pair_value high low) }
{
    let high = (high as char).to_digit(16)?;
    let low = (low as char).to_digit(16)?;
    Some((high * 16 + low) as u8)
}

// The bytes of a text of digits in either case; a text of odd length is refused before its characters are looked at.
#[tactic(auto, using(crate::proofs::Pairs::goes_first))]
pub fn decode(heap: Global, text: &str) -> Result<Vec<u8>, HexError>
    ensures { MatchResult result (λ v. Spells text.now v.items) (λ e. Unfit text.now e) }
{
    if text.len() % 2 != 0 {
        return Err(HexError::OddLength);
    }
    let mut bytes = Vec::new(heap);
    for digits in text.as_bytes().chunks_exact(2) {
        let byte = pair(digits[0], digits[1]).ok_or(HexError::NoDigit)?;
        bytes.push(byte)?;
    }
    Ok(bytes)
}
