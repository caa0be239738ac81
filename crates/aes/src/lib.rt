// AES-256 on lookup tables: a block stays in four words, and deciphering is the equivalent inverse cipher of FIPS 197.
#![tactic(auto)]

ghost use Rattle.std.specs.Prelude.{◌≡◌, ℕ, List, ◌+◌, ◌*◌, ◌<◌, ◌≤◌, length, map, take, drop};
ghost use Rattle.octets.specs.Little.{Bytes, le_bytes, le_number, xored};
ghost use Rattle.aes_tables.specs.Columns.{at};
ghost use Rattle.aes.specs.Aes.{four, mix_columns_back, changed, expanded, schedule, round_key, aes, aes_back};
ghost use Rattle.aes.specs.Words.{bytes_of, mirrored_bytes, KeysAre, back_key};
ghost use Rattle.aes.specs.Passes.{round_by, last_by, passed_by};
ghost use Rattle.aes.specs.Vector.{VectorHolds};
ghost use Rattle.aes.specs.Laws.{aes_inverse};
ghost use Rattle.std.proofs.Common.{rules, arith};

use aes_tables::{Back, Forward, Way, column, last_column, sub_word, unmixed_word};
use cipher::Cipher;
use std::array;
use std::ops::BitXor;

// The four columns of a state or of a round key. No Model: the rounds read the four words, and clauses say their bytes by
// a function over the fields, `bytes_of`.
#[derive(Clone, Copy)]
struct State {
    a: u32,
    b: u32,
    c: u32,
    d: u32,
}

impl From<[u32; 4]> for State {
    ghost from_gives = { λ words s. bytes_of s ≡ four (at words 0) (at words 1) (at words 2) (at words 3) };

    fn from(words: [u32; 4]) -> State {
        let [a, b, c, d] = words;
        State { a, b, c, d }
    }
}

impl From<u128> for State {
    ghost from_gives = { λ block s. bytes_of s ≡ le_bytes 16 block };

    fn from(block: u128) -> State {
        State {
            a: (block & 0xffff_ffff) as u32,
            b: (block >> 32 & 0xffff_ffff) as u32,
            c: (block >> 64 & 0xffff_ffff) as u32,
            d: (block >> 96) as u32,
        }
    }
}

impl From<State> for u128 {
    ghost from_gives = { λ s block. le_bytes 16 block ≡ bytes_of s };

    fn from(s: State) -> u128 {
        u128::from(s.a) | u128::from(s.b) << 32 | u128::from(s.c) << 64 | u128::from(s.d) << 96
    }
}

impl BitXor for State {
    type Output = State;

    ghost bitxor_gives = { λ s key sum. bytes_of sum ≡ xored (bytes_of s) (bytes_of key) };

    fn bitxor(self, key: State) -> State {
        State {
            a: self.a ^ key.a,
            b: self.b ^ key.b,
            c: self.c ^ key.c,
            d: self.d ^ key.d,
        }
    }
}

impl State {
    // The columns in the other order from the first on. To turn the rows of such a state left is to turn those of the
    // state right, so one round serves both ways.
    fn mirrored(self) -> State
        ensures { bytes_of result ≡ mirrored_bytes (bytes_of self) }
    {
        State {
            a: self.a,
            b: self.d,
            c: self.c,
            d: self.b,
        }
    }

    fn unmixed(self) -> State
        ensures { bytes_of result ≡ mix_columns_back (bytes_of self) }
    {
        State {
            a: unmixed_word(self.a),
            b: unmixed_word(self.b),
            c: unmixed_word(self.c),
            d: unmixed_word(self.d),
        }
    }

    // Each column takes the four words in another order, so they are passed one by one.
    fn full_round<W: Way>(self, key: State) -> State
        ensures { bytes_of result ≡ round_by W.substitution W.matrix (bytes_of self) (bytes_of key) }
    {
        State {
            a: column::<W>(self.a, self.b, self.c, self.d, key.a),
            b: column::<W>(self.b, self.c, self.d, self.a, key.b),
            c: column::<W>(self.c, self.d, self.a, self.b, key.c),
            d: column::<W>(self.d, self.a, self.b, self.c, key.d),
        }
    }

    fn last_round<W: Way>(self, key: State) -> State
        ensures { bytes_of result ≡ last_by W.substitution (bytes_of self) (bytes_of key) }
    {
        State {
            a: last_column::<W>(self.a, self.b, self.c, self.d, key.a),
            b: last_column::<W>(self.b, self.c, self.d, self.a, key.b),
            c: last_column::<W>(self.c, self.d, self.a, self.b, key.c),
            d: last_column::<W>(self.d, self.a, self.b, self.c, key.d),
        }
    }
}

// The first bytes of the round constants; the other three are 0.
static CONSTANTS: [u32; 7] = [0x01, 0x02, 0x04, 0x08, 0x10, 0x20, 0x40];

// What word `i` of the schedule takes from the word before it.
fn changed_word(i: usize, w: u32) -> u32
    requires { (8 ≤ i) × (i < 60) }
    ensures { result ≡ changed i w }
{
    if i % 8 == 0 {
        sub_word(w.rotate_right(8)) ^ CONSTANTS[i / 8 - 1]
    } else if i % 8 == 4 {
        sub_word(w)
    } else {
        w
    }
}

fn key_words(bytes: &[u8; 32]) -> [u32; 8]
    ensures { result ≡ expanded bytes.now 0 }
{
    let (words, _) = bytes.as_chunks::<4>();
    array::from_fn(|i| u32::from_le_bytes(words[i]))
}

fn expand(bytes: &[u8; 32]) -> [u32; 60]
    ensures { result ≡ schedule bytes.now }
{
    let mut words = [0u32; 60];
    words[..8].copy_from_slice(&key_words(bytes));
    // The index stays: the standard makes word n of words n - 8 and n - 1 of the array that is being filled, which no
    // iterator lends beside the word that it writes.
    for n in 8..60 {
        words[n] = words[n - 8] ^ changed_word(n, words[n - 1]);
    }
    words
}

// The round keys in the order in which a pass takes them, those of the full rounds apart.
#[derive(Clone, Copy)]
struct RoundKeys {
    first: State,
    full: [State; 13],
    last: State,
}

impl RoundKeys {
    fn new(words: &[u32; 60]) -> RoundKeys
        ensures { KeysAre result (round_key words.now) }
    {
        let (keys, _) = words.as_chunks::<4>();
        RoundKeys {
            first: State::from(keys[0]),
            full: array::from_fn(|i| State::from(keys[i + 1])),
            last: State::from(keys[14]),
        }
    }

    // The keys of the equivalent inverse cipher, for mirrored states.
    fn back(&self) -> RoundKeys
        ensures { (k : List ℕ) → KeysAre self.now (round_key k) → KeysAre result (back_key k) }
    {
        RoundKeys {
            first: self.last.mirrored(),
            full: array::from_fn(|i| self.full[12 - i].unmixed().mirrored()),
            last: self.first.mirrored(),
        }
    }

    // A block through all rounds of a way.
    fn pass<W: Way>(&self, block: State) -> State
        ensures { (key : ℕ → List ℕ) → KeysAre self.now key → bytes_of result ≡ passed_by W.substitution W.matrix key (bytes_of block) }
    {
        let mut s = block ^ self.first;
        for key in &self.full {
            s = s.full_round::<W>(*key);
        }
        s.last_round::<W>(self.last)
    }
}

// A key with its round keys for both ways, made once.
#[derive(Drop)]
pub struct Aes {
    bytes: [u8; 32],
    keys: RoundKeys,
    back_keys: RoundKeys,
    ghost sound: { Bytes 32 bytes },
    ghost scheduled: { KeysAre keys (round_key (schedule bytes)) },
    ghost turned: { KeysAre back_keys (back_key (schedule bytes)) },
}

impl Cipher for Aes {
    const NUMBER: u8 = 1;

    ghost NUMBER = { 1 };

    ghost forward = { aes };

    ghost back = { aes_back };

    ghost key = { λ c. c.bytes };

    ghost byte = { Prim.search rules };

    ghost inverse = { aes_inverse };

    ghost keyed = { first_of (Prim.search rules, Prim.grind (arith, Self.row.coded.inj)) };

    fn new(bytes: &[u8; 32]) -> Aes {
        let keys = RoundKeys::new(&expand(bytes));
        Aes {
            bytes: *bytes,
            keys,
            back_keys: keys.back(),
        }
    }

    fn encipher_number(&self, block: u128) -> u128 {
        u128::from(self.keys.pass::<Forward>(State::from(block)))
    }

    fn decipher_number(&self, block: u128) -> u128 {
        u128::from(
            self.back_keys
                .pass::<Back>(State::from(block).mirrored())
                .mirrored(),
        )
    }
}

// The example of FIPS 197 is met by the definition that the cipher is proved against.
pub fn vector_stands()
    ensures { VectorHolds }
{}
