// A card of sectors of 520 bytes, and a whole store: a card whose puts are all or nothing.
#![tactic(auto)]

ghost use Rattle.std.specs.Prelude.{◌≡◌};
ghost use Rattle.card.specs.Meaning.{Meaning, Sound};
ghost use Rattle.card.specs.Theorems.{PowerAlwaysTold};
ghost use Rattle.card.specs.Calls.{Counted, PoweredUp, ReadAt, WroteAt, PutOne, PutTwo};

use refusal::Refusal;

mod battery;
mod flat;

pub use battery::BatteryCard;
pub use flat::FlatCard;

// How many bytes a sector has.
pub const SECTOR_BYTES: usize = 520;

// A card may lose power in any call that passes the length test. It then answers "power", and so does every later call
// but a power-up that succeeds.
pub trait Card {
    ghost meaning: { Self → Meaning };

    fn count(&mut self) -> Result<u32, Refusal>
        ensures { Counted (meaning self.old) (meaning self.new) result };

    fn power_up(&mut self) -> Result<(), Refusal>
        ensures { PoweredUp (meaning self.old) (meaning self.new) result };

    fn read(&mut self, n: u32, buf: &mut [u8]) -> Result<(), Refusal>
        ensures { ReadAt (meaning self.old) (meaning self.new) n buf.old buf.new result };

    fn write(&mut self, n: u32, bytes: &[u8]) -> Result<(), Refusal>
        ensures { WroteAt (meaning self.old) (meaning self.new) n bytes.now result };

    ghost sound: { (c : Self) → Sound (meaning c) };
}

// A whole store is a card that also has puts: a put that loses power leaves all its sectors old or all new.
pub trait WholeStore: Card {
    fn put_one(&mut self, n: u32, bytes: &[u8]) -> Result<(), Refusal>
        ensures { PutOne (Self.Card.meaning self.old) (Self.Card.meaning self.new) n bytes.now result };

    fn put_two(&mut self, a: u32, x: &[u8], b: u32, y: &[u8]) -> Result<(), Refusal>
        ensures { PutTwo (Self.Card.meaning self.old) (Self.Card.meaning self.new) a x.now b y.now result };
}

// The theorem that a call which passed the length test answers "power" exactly where the power is off at its end.
pub fn power_always_told()
    ensures { PowerAlwaysTold }
{}
