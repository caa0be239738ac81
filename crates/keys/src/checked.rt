// A key under any cipher, with its check kept beside it.
ghost use Rattle.std.specs.Prelude.{◌≡◌};
ghost use Rattle.xts.specs.Xts.{check as checkOf};
ghost use Rattle.xts.specs.Calls.{key_bytes};
ghost use Rattle.octets.proofs.Lists.{append_bytes};

use crate::LoadedKey;
use cipher::Cipher;
use refusal::Refusal;
use xts::UnitKey;

#[derive(Drop)]
pub struct CheckedKey<C: Cipher> {
    key: UnitKey<C>,
    check: [u8; 16],
    ghost checked: { check ≡ checkOf C.forward (key_bytes C.key key) },
}

impl<C: Cipher + Drop> LoadedKey for CheckedKey<C> {
    ghost numbered = { C.NUMBER };

    ghost forward = { C.forward };

    ghost back = { C.back };

    ghost bytes = { λ k. key_bytes C.key k.key };

    ghost byte = { C.byte };

    ghost inverse = { C.inverse };

    ghost keyed = { λ k. append_bytes 32 32 (C.key k.key.key1) (C.key k.key.key2) (C.keyed k.key.key1) (C.keyed k.key.key2) };

    fn own_number() -> u8 {
        C::own_number()
    }

    fn new(key: &[u8]) -> Result<CheckedKey<C>, Refusal> {
        let key = UnitKey::<C>::new(key)?;
        let check = key.check();
        Ok(CheckedKey { key, check })
    }

    fn check(&self) -> [u8; 16] {
        self.check
    }

    fn seal(&self, number: u64, unit: &mut [u8]) -> Result<(), Refusal> {
        self.key.seal(number, unit)
    }

    fn open(&self, number: u64, unit: &mut [u8]) -> Result<(), Refusal> {
        self.key.open(number, unit)
    }
}
