// What ends a run: a line that is no call, or an input or output that fails.
use std::alloc::AllocError;
use std::{fmt, io};
use thiserror::Error;

// What a line should have had at the place where it went wrong.
#[derive(Clone, Copy, Debug, Error)]
pub enum Expected {
    #[error("text")]
    Text,
    #[error("stack CIPHER STORE SECTORS, before any call")]
    Stack,
    #[error("aes256 or speck")]
    Cipher,
    #[error("journal or battery")]
    Store,
    #[error("SECTORS, a decimal number of at most 4096")]
    Sectors,
    #[error("load, format, count, read, write, claim, begin, step, finish, hand-in, power-up, cut or dump")]
    Call,
    #[error("a key in hex")]
    Key,
    #[error("REACH, a decimal number below 2^32")]
    Reach,
    #[error("LABEL in hex")]
    Label,
    #[error("N, a decimal number below 2^32")]
    Number,
    #[error("BYTE, a decimal number below 256")]
    Byte,
    #[error("K, a decimal number below 2^32")]
    Accesses,
    #[error("KIND, a decimal number below 256")]
    Kind,
    #[error("no cut, since a battery stack has no cut layer")]
    CutLayer,
    #[error("the end of the line")]
    End,
    #[error("more memory")]
    Memory,
}

// A derived From would keep the AllocError in the case, and what hex_text says of memory has none to give.
impl From<AllocError> for Expected {
    fn from(_e: AllocError) -> Expected {
        Expected::Memory
    }
}

#[derive(Drop, Error)]
pub enum Fault {
    #[error("line {0}: expected {1}")]
    Line(u64, Expected),
    #[error(transparent)]
    Io(#[from] io::Error),
}

// `main` ends with this text. By hand, since an `anyhow::Error` keeps 120 bytes of it, and the longest lists 13 words.
impl fmt::Debug for Fault {
    fn fmt<W: fmt::Write>(&self, f: &mut fmt::Formatter<W>) -> fmt::Result {
        write!(f, "{self}")
    }
}
