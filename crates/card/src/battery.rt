// The battery card: a flat card whose write is a put, and which so is a whole store. A battery keeps its power on.
ghost use Rattle.std.specs.Prelude.{◌≡◌};
ghost use Rattle.card.specs.Buffers.{flat as flatOf};
ghost use Rattle.card.specs.Flatness.{flat_sound};

use crate::{Card, FlatCard, SECTOR_BYTES, WholeStore};
use refusal::Refusal;

#[derive(Drop)]
pub struct BatteryCard {
    card: FlatCard,
}

impl BatteryCard {
    pub fn new(bytes: Vec<u8>) -> BatteryCard
        ensures { result.card.bytes ≡ bytes }
    {
        BatteryCard {
            card: FlatCard::new(bytes),
        }
    }
}

impl Card for BatteryCard {
    ghost meaning = { λ c. flatOf c.card.bytes.items };

    ghost sound = { λ c. flat_sound c.card.bytes.items c.card.sound };

    fn count(&mut self) -> Result<u32, Refusal> {
        self.card.count()
    }

    fn power_up(&mut self) -> Result<(), Refusal> {
        self.card.power_up()
    }

    fn read(&mut self, n: u32, buf: &mut [u8]) -> Result<(), Refusal> {
        self.card.read(n, buf)
    }

    fn write(&mut self, n: u32, bytes: &[u8]) -> Result<(), Refusal> {
        self.put_one(n, bytes)
    }
}

impl WholeStore for BatteryCard {
    fn put_one(&mut self, n: u32, bytes: &[u8]) -> Result<(), Refusal> {
        self.card.write(n, bytes)
    }

    fn put_two(&mut self, a: u32, x: &[u8], b: u32, y: &[u8]) -> Result<(), Refusal> {
        if x.len() != SECTOR_BYTES || y.len() != SECTOR_BYTES {
            return Err(Refusal::WrongLength);
        }
        let count = self.card.sectors();
        if a >= count || b >= count || a == b {
            return Err(Refusal::OutOfRange);
        }
        self.card.replace(a, x);
        self.card.replace(b, y);
        Ok(())
    }
}
