// Reads what the words of a line ask for.
use crate::fault::Expected;
use crate::order::{Order, Plan, Request};
use card::SECTOR_BYTES;
use cut::Script;
use hex_text::HexError;
use std::alloc::Global;

// The limit of a script's line, which `Expected::Sectors` names; a card has its own.
const MOST_SECTORS: u32 = 4096;

// `units` reads its bytes so too: to share these lines would take a crate and an error of its own.
fn bytes_at(
    heap: Global,
    words: &[&str],
    place: usize,
    wanted: Expected,
) -> Result<Vec<u8>, Expected> {
    let word = words::at(words, place);
    if word.is_empty() {
        return Err(wanted);
    }
    hex_text::decode(heap, word).map_err(|e| match e {
        HexError::Memory => Expected::Memory,
        _ => wanted,
    })
}

// The decimal number at a place, which has to fit its type.
fn number_at<T: TryFrom<u64>>(words: &[&str], place: usize, wanted: Expected) -> Result<T, Expected>
where
    T::Error: Drop,
{
    let number = words::number(words::at(words, place)).ok_or(wanted)?;
    T::try_from(number).map_err(|_| wanted)
}

// No word may stand at this place or after it.
fn ends_at(words: &[&str], place: usize) -> Result<(), Expected> {
    if words.len() > place {
        return Err(Expected::End);
    }
    Ok(())
}

// The stack that the first line asks for.
pub(crate) fn plan(words: &[&str]) -> Result<Plan, Expected> {
    if words::at(words, 0) != "stack" {
        return Err(Expected::Stack);
    }
    let cipher = words::at(words, 1).parse()?;
    let store = words::at(words, 2).parse()?;
    let sectors = number_at(words, 3, Expected::Sectors)?;
    if sectors > MOST_SECTORS {
        return Err(Expected::Sectors);
    }
    ends_at(words, 4)?;
    Ok(Plan {
        cipher,
        store,
        sectors,
    })
}

fn load(heap: Global, words: &[&str]) -> Result<Request, Expected> {
    let first = bytes_at(heap, words, 1, Expected::Key)?;
    if words.len() <= 2 {
        return Ok(Request::Load(first, None));
    }
    let second = bytes_at(heap, words, 2, Expected::Key)?;
    ends_at(words, 3)?;
    Ok(Request::Load(first, Some(second)))
}

fn format(heap: Global, words: &[&str]) -> Result<Request, Expected> {
    let reach = number_at(words, 1, Expected::Reach)?;
    let label = bytes_at(heap, words, 2, Expected::Label)?;
    ends_at(words, 3)?;
    Ok(Request::Format(reach, label))
}

fn read(words: &[&str]) -> Result<Request, Expected> {
    let n = number_at(words, 1, Expected::Number)?;
    ends_at(words, 2)?;
    Ok(Request::Read(n))
}

fn write(words: &[&str]) -> Result<Request, Expected> {
    let n = number_at(words, 1, Expected::Number)?;
    let byte: u8 = number_at(words, 2, Expected::Byte)?;
    ends_at(words, 3)?;
    Ok(Request::Write(n, [byte; SECTOR_BYTES]))
}

fn alone(words: &[&str], request: Request) -> Result<Request, Expected> {
    ends_at(words, 1)?;
    Ok(request)
}

fn request(heap: Global, words: &[&str]) -> Result<Request, Expected> {
    match words::at(words, 0) {
        "load" => load(heap, words),
        "format" => format(heap, words),
        "read" => read(words),
        "write" => write(words),
        "count" => alone(words, Request::Count),
        "claim" => alone(words, Request::Claim),
        "begin" => alone(words, Request::Begin),
        "step" => alone(words, Request::Step),
        "finish" => alone(words, Request::Finish),
        "hand-in" => alone(words, Request::HandIn),
        "power-up" => alone(words, Request::PowerUp),
        _ => Err(Expected::Call),
    }
}

fn cut(words: &[&str]) -> Result<Order, Expected> {
    let left = number_at(words, 1, Expected::Accesses)?;
    let kind = number_at(words, 2, Expected::Kind)?;
    ends_at(words, 3)?;
    Ok(Order::Cut(Script { left, kind }))
}

fn dump(words: &[&str]) -> Result<Order, Expected> {
    let n = number_at(words, 1, Expected::Number)?;
    ends_at(words, 2)?;
    Ok(Order::Dump(n))
}

// What a later line asks for.
pub(crate) fn order(heap: Global, words: &[&str]) -> Result<Order, Expected> {
    match words::at(words, 0) {
        "cut" => cut(words),
        "dump" => dump(words),
        _ => Ok(Order::Call(request(heap, words)?)),
    }
}
