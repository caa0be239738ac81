// A task: what to encipher or decipher, by which cipher and under which key; and what came of it.
use refusal::Refusal;

// `drive` has the same two names: a crate for them, with an error of its own, would be longer.
#[derive(Clone, Copy)]
pub enum CipherName {
    Aes256,
    Speck,
}

// Read from a line, so it is a value: two matches with two arms are plainer than closures that a match would choose.
#[derive(Clone, Copy)]
pub enum Direction {
    Forward,
    Back,
}

// One block alone, or a unit, which has a number.
#[derive(Clone, Copy)]
pub enum Extent {
    Block,
    Unit(u64),
}

#[derive(Drop)]
pub struct Task {
    pub extent: Extent,
    pub direction: Direction,
    pub cipher: CipherName,
    pub key: Vec<u8>,
    pub input: Vec<u8>,
}

pub type Outcome = Result<Vec<u8>, Refusal>;
