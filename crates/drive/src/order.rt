// What a line asks for.
use crate::fault::Expected;
use card::SECTOR_BYTES;
use cut::Script;
use history::Call;
use std::str::FromStr;

// The program `units` has the same two names: to share these lines would take a crate, and an error of its own that both
// programs turn into theirs.
#[derive(Clone, Copy)]
pub enum CipherName {
    Aes256,
    Speck,
}

impl FromStr for CipherName {
    type Err = Expected;

    fn from_str(word: &str) -> Result<CipherName, Expected> {
        match word {
            "aes256" => Ok(CipherName::Aes256),
            "speck" => Ok(CipherName::Speck),
            _ => Err(Expected::Cipher),
        }
    }
}

#[derive(Clone, Copy)]
pub enum StoreName {
    // A flat card, the cut layer and the journal.
    Journal,
    // The battery card alone.
    Battery,
}

impl FromStr for StoreName {
    type Err = Expected;

    fn from_str(word: &str) -> Result<StoreName, Expected> {
        match word {
            "journal" => Ok(StoreName::Journal),
            "battery" => Ok(StoreName::Battery),
            _ => Err(Expected::Store),
        }
    }
}

// What a drive is made of.
#[derive(Clone, Copy)]
pub struct Plan {
    pub cipher: CipherName,
    pub store: StoreName,
    pub sectors: u32,
}

#[derive(Drop)]
pub enum Order {
    Call(Request),
    // Sets the script of the cut layer.
    Cut(Script),
    // Shows a sector of the card at the bottom.
    Dump(u32),
}

// A call with the bytes that it is given: `Call` only borrows them.
#[derive(Drop)]
pub enum Request {
    PowerUp,
    Count,
    Load(Vec<u8>, Option<Vec<u8>>),
    Format(u32, Vec<u8>),
    Read(u32),
    Write(u32, [u8; SECTOR_BYTES]),
    Claim,
    Begin,
    Step,
    Finish,
    HandIn,
}

impl Request {
    pub(crate) fn call(&self) -> Call {
        match self {
            Request::PowerUp => Call::PowerUp,
            Request::Count => Call::Count,
            Request::Load(first, second) => Call::Load(first, second.as_deref()),
            Request::Format(reach, label) => Call::Format(*reach, label),
            Request::Read(n) => Call::Read(*n),
            Request::Write(n, bytes) => Call::Write(*n, bytes),
            Request::Claim => Call::Claim,
            Request::Begin => Call::Begin,
            Request::Step => Call::Step,
            Request::Finish => Call::Finish,
            Request::HandIn => Call::HandIn,
        }
    }
}
