// The flat card: a buffer that it owns, sector after sector. Its power starts on and stays on.
ghost use Rattle.std.specs.Prelude.{◌≡◌, ℕ, ◌+◌, ◌*◌, ◌<◌, ◌≤◌, length};
ghost use Rattle.std.proofs.Math.Seq.{paste};
ghost use Rattle.octets.specs.Little.{Bytes};
ghost use Rattle.card.specs.Meaning.{count, put};
ghost use Rattle.card.specs.Buffers.{flat as flatOf, sector_in};
ghost use Rattle.card.specs.Calls.{Tested};
ghost use Rattle.card.specs.Flatness.{flat_sound};

use crate::{Card, SECTOR_BYTES};
use octets::all_bytes;
use refusal::Refusal;

// The most sectors that a flat card shows.
const MOST_SECTORS: usize = 4096;

#[derive(Drop)]
pub struct FlatCard {
    bytes: Vec<u8>,
    ghost sound: { Bytes (length bytes.items) bytes.items },
}

fn copy_out(all: &[u8], n: u32, buf: &mut [u8])
    requires within { n * 520 + 520 ≤ length all.now }
    requires long { length buf.old ≡ 520 }
    ensures { buf.new ≡ sector_in all.now n }
{
    let start = n as usize * SECTOR_BYTES;
    buf.copy_from_slice(&all[start..start + SECTOR_BYTES]);
}

fn copy_in(all: &mut [u8], n: u32, bytes: &[u8])
    requires within { n * 520 + 520 ≤ length all.old }
    requires long { length bytes.now ≡ 520 }
    ensures { all.new ≡ paste all.old (n * 520) bytes.now 520 }
{
    let start = n as usize * SECTOR_BYTES;
    all[start..start + SECTOR_BYTES].copy_from_slice(bytes);
}

impl FlatCard {
    pub fn new(bytes: Vec<u8>) -> FlatCard
        ensures { result.bytes ≡ bytes }
    {
        all_bytes(bytes.as_slice());
        FlatCard { bytes }
    }

    pub(crate) fn sectors(&self) -> u32
        ensures { result ≡ count (flatOf self.now.bytes.items) }
    {
        (self.bytes.len() / SECTOR_BYTES).min(MOST_SECTORS) as u32
    }

    // The tests of a read and a write: the length, then the number.
    fn test(&self, n: u32, bytes: &[u8]) -> Result<(), Refusal>
        ensures { Tested (flatOf self.now.bytes.items) n bytes.now result }
    {
        if bytes.len() != SECTOR_BYTES {
            return Err(Refusal::WrongLength);
        }
        if n >= self.sectors() {
            return Err(Refusal::OutOfRange);
        }
        Ok(())
    }

    // Replaces a sector that is there.
    pub(crate) fn replace(&mut self, n: u32, bytes: &[u8])
        requires within { n < count (flatOf self.old.bytes.items) }
        requires long { length bytes.now ≡ 520 }
        ensures { flatOf self.new.bytes.items ≡ put (flatOf self.old.bytes.items) n bytes.now }
    {
        copy_in(self.bytes.as_mut_slice(), n, bytes);
    }
}

impl Card for FlatCard {
    ghost meaning = { λ c. flatOf c.bytes.items };

    ghost sound = { λ c. flat_sound c.bytes.items c.sound };

    fn count(&mut self) -> Result<u32, Refusal> {
        Ok(self.sectors())
    }

    fn power_up(&mut self) -> Result<(), Refusal> {
        Ok(())
    }

    fn read(&mut self, n: u32, buf: &mut [u8]) -> Result<(), Refusal> {
        self.test(n, buf)?;
        copy_out(self.bytes.as_slice(), n, buf);
        Ok(())
    }

    fn write(&mut self, n: u32, bytes: &[u8]) -> Result<(), Refusal> {
        self.test(n, bytes)?;
        self.replace(n, bytes);
        Ok(())
    }
}
