// What a block cipher is: made from a key of 32 bytes, it is that key's map of blocks of 16 bytes, and the map back.
#![tactic(auto)]

ghost use Rattle.std.specs.Prelude.{◌≡◌, ◌<◌, List, ℕ};
ghost use Rattle.octets.specs.Little.{Bytes, le_bytes};
ghost use Rattle.cipher.specs.Maps.{Maps, Inverse};

pub trait Cipher: Sized {
    // The cipher's own number, as a volume's trailer has it.
    const NUMBER: u8;

    ghost NUMBER: { ℕ };

    ghost forward: { Maps };

    ghost back: { Maps };

    // The key that a value was made from.
    ghost key: { Self → List ℕ };

    fn own_number() -> u8
        ensures { result ≡ NUMBER }
    {
        Self::NUMBER
    }

    fn new(bytes: &[u8; 32]) -> Self
        ensures { key result ≡ bytes.now };

    // Enciphers the block whose little-endian number this is: no byte leaves a register.
    fn encipher_number(&self, block: u128) -> u128
        ensures { le_bytes 16 result ≡ forward (key self.now) (le_bytes 16 block) };

    fn decipher_number(&self, block: u128) -> u128
        ensures { le_bytes 16 result ≡ back (key self.now) (le_bytes 16 block) };

    fn encipher(&self, block: &mut [u8; 16])
        ensures { block.new ≡ forward (key self.now) block.old }
    {
        *block = octets::block_bytes(self.encipher_number(octets::block_number(block)));
    }

    fn decipher(&self, block: &mut [u8; 16])
        ensures { block.new ≡ back (key self.now) block.old }
    {
        *block = octets::block_bytes(self.decipher_number(octets::block_number(block)));
    }

    ghost byte: { NUMBER < 256 };

    ghost inverse: { Inverse forward back };

    ghost keyed: { (c : Self) → Bytes 32 (key c) };
}
