// A unit taken through a cipher block by block, tweak by tweak, in place.
ghost use Rattle.std.specs.Prelude.{◌≡◌, ℕ, ◌<◌, ◌≤◌, Bool, true, false, refl, List, ◌++◌, length, take, drop, if◌then◌else◌};
ghost use Rattle.octets.specs.Little.{le_bytes};
ghost use Rattle.xts.specs.Xts.{doubled as doubledOf, under, stolen, walked, before_last};

use cipher::Cipher;

// The next tweak.
fn doubled(t: u128) -> u128
    ensures { result ≡ doubledOf t }
{
    (t << 1) ^ ((t >> 127) * 0x87)
}

// A way through a cipher: its map of blocks, or the map back.
pub(crate) trait Way<C: Cipher> {
    // Whether it is the way back, which takes the two tweaks of a stolen end in the other order.
    const BACK: bool;

    ghost BACK: { Bool };

    ghost map: { C → List ℕ → List ℕ };

    fn map(cipher: &C, block: u128) -> u128
        ensures { le_bytes 16 result ≡ map cipher.now (le_bytes 16 block) };

    // The block that begins a unit, under tweak t.
    final fn change_first(cipher: &C, t: u128, unit: &mut [u8])
        requires { 16 ≤ length unit.old }
        ensures { unit.new ≡ under (map cipher.now) t (take 16 unit.old) ++ drop 16 unit.old }
    {
        if let Some(block) = unit.first_chunk_mut::<16>() {
            *block = octets::block_bytes(Self::map(cipher, octets::block_number(block) ^ t) ^ t);
        }
    }

    // The last whole block and the tail after it: the block goes under the tweak `one`, its first bytes change places
    // with the tail, and it goes under `other`.
    final fn steal(cipher: &C, one: u128, other: u128, end: &mut [u8])
        requires { (16 ≤ length end.old) × (length end.old < 32) }
        ensures { end.new ≡ stolen (map cipher.now) one other end.old }
    {
        Self::change_first(cipher, one, end);
        let (block, tail) = end.split_at_mut(16);
        block[..tail.len()].swap_with_slice(tail);
        Self::change_first(cipher, other, end);
    }

    // The last whole block, and a tail if there is one, from tweak t on.
    final fn finish(cipher: &C, t: u128, end: &mut [u8])
        requires { (16 ≤ length end.old) × (length end.old < 32) }
        ensures { end.new ≡ walked (map cipher.now) BACK t 0 end.old }
    {
        if end.len() == 16 {
            Self::change_first(cipher, t, end);
        } else if Self::BACK {
            Self::steal(cipher, doubled(t), t, end);
        } else {
            Self::steal(cipher, t, doubled(t), end);
        }
    }

    // A whole unit, from tweak `first` on.
    final fn walk(cipher: &C, first: u128, unit: &mut [u8])
        requires { 16 ≤ length unit.old }
        ensures { unit.new ≡ walked (map cipher.now) BACK first (before_last unit.old) unit.old }
    {
        let mut t = first;
        let before_last = unit.len() / 16 - 1;
        // By index: a loop over `chunks_exact_mut` was tried, and std does not say what the slice holds after it.
        for j in 0..before_last {
            Self::change_first(cipher, t, &mut unit[16 * j..]);
            t = doubled(t);
        }
        Self::finish(cipher, t, &mut unit[16 * before_last..]);
    }

    ghost either: { (c : C) → map c ≡ (if BACK then C.Cipher.back else C.Cipher.forward) (C.Cipher.key c) };
}

pub(crate) struct Forward;

impl<C: Cipher> Way<C> for Forward {
    const BACK: bool = false;

    ghost BACK = { false };

    ghost map = { λ c. C.Cipher.forward (C.Cipher.key c) };

    ghost either = { λ c. refl };

    fn map(cipher: &C, block: u128) -> u128 {
        cipher.encipher_number(block)
    }
}

pub(crate) struct Back;

impl<C: Cipher> Way<C> for Back {
    const BACK: bool = true;

    ghost BACK = { true };

    ghost map = { λ c. C.Cipher.back (C.Cipher.key c) };

    ghost either = { λ c. refl };

    fn map(cipher: &C, block: u128) -> u128 {
        cipher.decipher_number(block)
    }
}
