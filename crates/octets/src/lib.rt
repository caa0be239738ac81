// Blocks of sixteen bytes as 128-bit numbers, little-endian, the halves of such a number, and runs of one byte.
#![tactic(auto)]

ghost use Rattle.std.specs.Prelude.{◌≡◌, ℕ, ◌+◌, ◌*◌, ◌/◌, ◌%◌, ◌^◌, length};
ghost use Rattle.octets.specs.Little.{Bytes, le_number, le_bytes, all_are};

// The number whose little-endian bytes are the block. These five stay, since callers' proofs want their clauses: the
// library's for a block are sums of sixteen terms, and for a half there is a mask, a shift and a cast.
#[tactic(auto, using(crate::proofs::Numbers::number16_is))]
pub fn block_number(block: &[u8; 16]) -> u128
    ensures { result ≡ le_number block.now }
{
    u128::from_le_bytes(*block)
}

// The sixteen little-endian bytes of a number.
#[tactic(auto, using(crate::proofs::Numbers::bytes16_is))]
pub fn block_bytes(number: u128) -> [u8; 16]
    ensures { result ≡ le_bytes 16 number }
{
    number.to_le_bytes()
}

// The number of a block's first eight bytes. A cast may lose no bits, so a mask comes before it.
pub fn low_half(number: u128) -> u64
    ensures { result ≡ number % 2 ^ 64 }
{
    (number & 0xffff_ffff_ffff_ffff) as u64
}

// The number of a block's last eight bytes.
pub fn high_half(number: u128) -> u64
    ensures { result ≡ number / 2 ^ 64 }
{
    (number >> 64) as u64
}

// The number that has these two halves.
pub fn joined(low: u64, high: u64) -> u128
    ensures { result ≡ low + high * 2 ^ 64 }
{
    u128::from(low) | (u128::from(high) << 64)
}

// Whether each byte is v.
pub fn all_are(s: &[u8], v: u8) -> bool
    ensures { result ≡ all_are v s.now }
{
    s.iter().all(|x| *x == v)
}

// What a slice of bytes holds are bytes: a fact for the proofs of callers, and nothing that runs.
pub fn all_bytes(s: &[u8])
    ensures { Bytes (length s.now) s.now }
{}
