// Speck128/256.
#![tactic(auto)]

ghost use Rattle.std.specs.Prelude.{◌≡◌, ℕ, ◌<◌, slice_index};
ghost use Rattle.octets.specs.Little.{Bytes, le_bytes};
ghost use Rattle.speck.specs.Speck.{Pair, Keys, pair, pair_of, block_of, keys as keys_of, keys_first, keys_next, round as roundOf, round_back, round_key, speck as speckOf, speck_back};
ghost use Rattle.speck.specs.Vector.{VectorHolds};
ghost use Rattle.speck.specs.Laws.{inverse_by};
ghost use Rattle.speck.specs.Rounds.{round_fit, round_back_fit, undone as round_undone, redone as round_redone};
ghost use Rattle.std.proofs.Common.{rules, arith};

use cipher::Cipher;
use std::marker::Model;

// The two words of a block.
#[derive(Drop)]
struct Words {
    x: u64,
    y: u64,
}

impl Model for Words {
    ghost Value = { Pair };

    ghost view = { λ w. pair w.x w.y };
}

impl From<u128> for Words {
    ghost from_gives = { λ block words. words ≡ pair_of (le_bytes 16 block) };

    fn from(block: u128) -> Words {
        Words {
            x: octets::high_half(block),
            y: octets::low_half(block),
        }
    }
}

impl From<Words> for u128 {
    ghost from_gives = { λ words block. le_bytes 16 block ≡ block_of words };

    fn from(words: Words) -> u128 {
        octets::joined(words.y, words.x)
    }
}

impl Words {
    fn round(self, k: u64) -> Words
        ensures { result ≡ roundOf k self }
    {
        let x = self.x.rotate_right(8).wrapping_add(self.y) ^ k;
        Words {
            x,
            y: self.y.rotate_left(3) ^ x,
        }
    }

    fn round_back(self, k: u64) -> Words
        ensures { result ≡ round_back k self }
    {
        let y = (self.y ^ self.x).rotate_right(3);
        Words {
            x: (self.x ^ k).wrapping_sub(y).rotate_left(8),
            y,
        }
    }
}

// The key schedule at a round: the round's key, and the words that later keys come from.
#[derive(Drop)]
struct Schedule {
    k: u64,
    l0: u64,
    l1: u64,
    l2: u64,
}

impl Model for Schedule {
    ghost Value = { Keys };

    ghost view = { λ s. keys_of s.k s.l0 s.l1 s.l2 };
}

impl From<&[u8; 32]> for Schedule {
    ghost from_gives = { λ key s. s ≡ keys_first key.now };

    fn from(key: &[u8; 32]) -> Schedule {
        let (words, _) = key.as_chunks::<8>();
        Schedule {
            k: u64::from_le_bytes(words[0]),
            l0: u64::from_le_bytes(words[1]),
            l1: u64::from_le_bytes(words[2]),
            l2: u64::from_le_bytes(words[3]),
        }
    }
}

impl Schedule {
    // From round i to the next.
    fn next(self, i: u64) -> Schedule
        ensures { result ≡ keys_next i self }
    {
        let l3 = self.k.wrapping_add(self.l0.rotate_right(8)) ^ i;
        Schedule {
            k: self.k.rotate_left(3) ^ l3,
            l0: self.l1,
            l1: self.l2,
            l2: l3,
        }
    }
}

// The 34 round keys of a key.
fn round_keys(key: &[u8; 32]) -> [u64; 34]
    ensures { (i : ℕ) → i < 34 → slice_index result i ≡ round_key key.now i }
{
    let mut state = Schedule::from(key);
    let mut keys = [0u64; 34];
    for (i, k) in keys.iter_mut().enumerate() {
        *k = state.k;
        state = state.next(i as u64);
    }
    keys
}

// A key of 32 bytes with its round keys, worked out once.
#[derive(Drop)]
pub struct Speck {
    bytes: [u8; 32],
    keys: [u64; 34],
    ghost sound: { Bytes 32 bytes },
    ghost scheduled: { (i : ℕ) → i < 34 → slice_index keys i ≡ round_key bytes i },
}

impl Cipher for Speck {
    const NUMBER: u8 = 2;

    ghost NUMBER = { 2 };

    ghost forward = { speckOf };

    ghost back = { speck_back };

    ghost key = { λ c. c.bytes };

    ghost byte = { Prim.search rules };

    ghost inverse = { inverse_by (record { fit = round_fit; back_fit = round_back_fit; undone = round_undone; redone = round_redone }) };

    ghost keyed = { first_of (Prim.search rules, Prim.grind (arith, Self.row.coded.inj)) };

    fn new(bytes: &[u8; 32]) -> Speck {
        let keys = round_keys(bytes);
        Speck {
            bytes: *bytes,
            keys,
        }
    }

    fn encipher_number(&self, block: u128) -> u128 {
        let mut words = Words::from(block);
        for k in &self.keys {
            words = words.round(*k);
        }
        u128::from(words)
    }

    fn decipher_number(&self, block: u128) -> u128 {
        let mut words = Words::from(block);
        for k in self.keys.iter().rev() {
            words = words.round_back(*k);
        }
        u128::from(words)
    }
}

// The published vector, of the definition that the contracts cite.
pub fn vector_stands()
    ensures { VectorHolds }
{}
