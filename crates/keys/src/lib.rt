// Keys loaded into a volume: each key's schedules and check are worked out once, when it is loaded.
#![tactic(auto)]

ghost use Rattle.std.specs.Prelude.{◌≡◌, ℕ, ◌<◌, List};
ghost use Rattle.octets.specs.Little.{Bytes};
ghost use Rattle.cipher.specs.Maps.{Maps, Inverse};
ghost use Rattle.xts.specs.Xts.{encipher, decipher, check as checkOf};
ghost use Rattle.xts.specs.Calls.{Taken, Makes, unit_demands};

use refusal::Refusal;

mod checked;
mod names;
mod ring;

pub use checked::CheckedKey;
pub use names::{AesKey, SpeckKey, names_say_their_ciphers};
pub use ring::Keyring;

// A key of 64 bytes under one cipher, ready for use.
pub trait LoadedKey: Sized {
    // The cipher's number and maps.
    ghost numbered: { ℕ };

    ghost forward: { Maps };

    ghost back: { Maps };

    // The 64 bytes that the key was made from.
    ghost bytes: { Self → List ℕ };

    fn own_number() -> u8
        ensures { result ≡ numbered };

    // Refuses a key that is not 64 bytes long, then one whose halves are equal.
    fn new(key: &[u8]) -> Result<Self, Refusal>
        ensures { Taken key.now bytes result };

    fn check(&self) -> [u8; 16]
        ensures { result ≡ checkOf forward (bytes self.now) };

    // Enciphers a unit in place; refuses one that is not 16 to 4,096 bytes long.
    fn seal(&self, number: u64, unit: &mut [u8]) -> Result<(), Refusal>
        ensures { Makes (unit_demands unit.old) (encipher forward (bytes self.now) number unit.old) unit.old result unit.new };

    // Deciphers a unit in place, and refuses as `seal` does.
    fn open(&self, number: u64, unit: &mut [u8]) -> Result<(), Refusal>
        ensures { Makes (unit_demands unit.old) (decipher forward back (bytes self.now) number unit.old) unit.old result unit.new };

    ghost byte: { numbered < 256 };

    ghost inverse: { Inverse forward back };

    ghost keyed: { (k : Self) → Bytes 64 (bytes k) };
}
