// XTS over any cipher: units of 16 to 4,096 bytes under a key of 64 bytes, and the check of a key.
#![tactic(auto)]

ghost use Rattle.std.specs.Prelude.{◌≡◌, ◌↔◌, ◌≤◌, true, length};
ghost use Rattle.octets.specs.Little.{le_bytes, le_number};
ghost use Rattle.xts.specs.Xts.{encipher as encipherOf, decipher as decipherOf, passed, check as checkOf};
ghost use Rattle.xts.specs.Calls.{key_bytes, unit_demands, call_demands, Makes, Taken};
ghost use Rattle.xts.specs.Theorems.{EachUndoesTheOther, EnciphersBlockByBlock, DeciphersBlockByBlock};

use blocks::{Back, Forward, Way};
use cipher::Cipher;
use refusal::Refusal;

mod blocks;

// A unit has 16 bytes to as many.
const LONGEST_UNIT: usize = 4096;

// Whether the bytes are as many as a unit has.
fn is_unit(bytes: &[u8]) -> bool
    ensures { result ≡ true ↔ (16 ≤ length bytes.now) × (length bytes.now ≤ 4096) }
{
    (16..=LONGEST_UNIT).contains(&bytes.len())
}

// A key made ready: its two halves expanded once. As in IEEE 1619, key1 enciphers blocks and key2 the tweak.
#[derive(Drop)]
pub struct UnitKey<C> {
    key1: C,
    key2: C,
}

impl<C: Cipher> UnitKey<C> {
    // Refuses a key that is not 64 bytes long, then one whose halves are equal.
    pub fn new(key: &[u8]) -> Result<UnitKey<C>, Refusal>
        ensures { Taken key.now (key_bytes C.Cipher.key) result }
    {
        let ([first, second], []) = key.as_chunks::<32>() else {
            return Err(Refusal::WrongLength);
        };
        if first == second {
            return Err(Refusal::UnfitKey);
        }
        Ok(UnitKey {
            key1: C::new(first),
            key2: C::new(second),
        })
    }

    // Tweak 0 of a unit.
    fn first_tweak(&self, number: u64) -> u128
        ensures { result ≡ le_number (C.Cipher.forward (C.Cipher.key self.now.key2) (le_bytes 16 number)) }
    {
        self.key2.encipher_number(number as u128)
    }

    // Enciphers a unit in place, or where W is the way back deciphers it.
    fn pass<W: Way<C>>(&self, number: u64, unit: &mut [u8])
        requires { 16 ≤ length unit.old }
        ensures { unit.new ≡ passed W.BACK C.Cipher.forward C.Cipher.back (key_bytes C.Cipher.key self.now) number unit.old }
    {
        W::walk(&self.key1, self.first_tweak(number), unit);
    }

    // The same, for a unit that may have a wrong length.
    fn try_pass<W: Way<C>>(&self, number: u64, unit: &mut [u8]) -> Result<(), Refusal>
        ensures { Makes (unit_demands unit.old) (passed W.BACK C.Cipher.forward C.Cipher.back (key_bytes C.Cipher.key self.now) number unit.old) unit.old result unit.new }
    {
        if !is_unit(unit) {
            return Err(Refusal::WrongLength);
        }
        self.pass::<W>(number, unit);
        Ok(())
    }

    // Enciphers a unit in place; refuses one that is not 16 to 4,096 bytes long.
    pub fn seal(&self, number: u64, unit: &mut [u8]) -> Result<(), Refusal>
        ensures { Makes (unit_demands unit.old) (encipherOf C.Cipher.forward (key_bytes C.Cipher.key self.now) number unit.old) unit.old result unit.new }
    {
        self.try_pass::<Forward>(number, unit)
    }

    // Deciphers a unit in place; refuses one that is not 16 to 4,096 bytes long.
    pub fn open(&self, number: u64, unit: &mut [u8]) -> Result<(), Refusal>
        ensures { Makes (unit_demands unit.old) (decipherOf C.Cipher.forward C.Cipher.back (key_bytes C.Cipher.key self.now) number unit.old) unit.old result unit.new }
    {
        self.try_pass::<Back>(number, unit)
    }

    // Enciphers a sector in place.
    pub fn seal_sector(&self, number: u64, sector: &mut [u8; 520])
        ensures { sector.new ≡ encipherOf C.Cipher.forward (key_bytes C.Cipher.key self.now) number sector.old }
    {
        self.pass::<Forward>(number, sector);
    }

    // Deciphers a sector in place.
    pub fn open_sector(&self, number: u64, sector: &mut [u8; 520])
        ensures { sector.new ≡ decipherOf C.Cipher.forward C.Cipher.back (key_bytes C.Cipher.key self.now) number sector.old }
    {
        self.pass::<Back>(number, sector);
    }

    // The check of the key, by which a volume knows it again.
    pub fn check(&self) -> [u8; 16]
        ensures { result ≡ checkOf C.Cipher.forward (key_bytes C.Cipher.key self.now) }
    {
        let mut zeros = [0u8; 16];
        self.pass::<Forward>(u64::MAX, &mut zeros);
        zeros
    }
}

// Enciphers the unit `input` into `output`, or where W is the way back deciphers it. All tests of lengths come first.
fn pass_into<C: Cipher + Drop, W: Way<C>>(
    key: &[u8],
    number: u64,
    input: &[u8],
    output: &mut [u8],
) -> Result<(), Refusal>
    ensures { Makes (call_demands key.now input.now output.old) (passed W.BACK C.Cipher.forward C.Cipher.back key.now number input.now) output.old result output.new }
{
    if !is_unit(input) || output.len() != input.len() {
        return Err(Refusal::WrongLength);
    }
    let key = UnitKey::<C>::new(key)?;
    output.copy_from_slice(input);
    key.pass::<W>(number, output);
    Ok(())
}

// Enciphers the unit `input` into `output`. Refuses lengths first: a key not of 64 bytes, an input not of 16 to 4,096,
// an output of another length; then a key whose halves are equal. Where it refuses, `output` is left alone.
pub fn encipher<C: Cipher + Drop>(
    key: &[u8],
    number: u64,
    input: &[u8],
    output: &mut [u8],
) -> Result<(), Refusal>
    ensures { Makes (call_demands key.now input.now output.old) (encipherOf C.Cipher.forward key.now number input.now) output.old result output.new }
{
    pass_into::<C, Forward>(key, number, input, output)
}

// Deciphers the unit `input` into `output`, and refuses as `encipher` does.
pub fn decipher<C: Cipher + Drop>(
    key: &[u8],
    number: u64,
    input: &[u8],
    output: &mut [u8],
) -> Result<(), Refusal>
    ensures { Makes (call_demands key.now input.now output.old) (decipherOf C.Cipher.forward C.Cipher.back key.now number input.now) output.old result output.new }
{
    pass_into::<C, Back>(key, number, input, output)
}

// The theorem that deciphering undoes enciphering and enciphering deciphering, for every cipher, key, number and length.
pub fn each_undoes_the_other<C: Cipher>()
    ensures { EachUndoesTheOther C.Cipher.forward C.Cipher.back }
{}

// The theorem that units are enciphered and deciphered block by block as the standard words it, whatever the cipher.
pub fn block_by_block<C: Cipher>()
    ensures enciphering { EnciphersBlockByBlock C.Cipher.forward }
    ensures deciphering { DeciphersBlockByBlock C.Cipher.forward C.Cipher.back }
{}
