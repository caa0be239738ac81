// The stores that a drive is rehearsed on, with what a rehearsal does to them that is no call.
ghost use Rattle.std.specs.Prelude.{◌≡◌, Some, None};
ghost use Rattle.card.specs.Buffers.{flat as flatOf};
ghost use Rattle.card.specs.Calls.{ReadAt};

use card::{BatteryCard, Card, FlatCard, WholeStore};
use cut::{Cut, Script};
use journal::Journal;
use refusal::Refusal;

pub type JournalStack = Journal<Cut<FlatCard>>;

pub(crate) fn journal_stack(bytes: Vec<u8>) -> JournalStack {
    Journal::new(Cut::new(FlatCard::new(bytes)))
}

pub trait Bench: WholeStore {
    // Sets the script of the cut layer; none where the stack has no such layer.
    fn cut(&mut self, script: Script) -> Option<()>;

    // Reads a sector of the card at the bottom, past the cut layer: that is no access, and needs no power.
    fn dump(&mut self, n: u32, sector: &mut [u8]) -> Result<(), Refusal>;
}

impl Bench for JournalStack {
    fn cut(&mut self, script: Script) -> Option<()>
        ensures answers { result ≡ Some tt }
        ensures sets { self.new.card.script ≡ Some script }
        ensures powered { self.new.card.powered ≡ self.old.card.powered }
        ensures card { self.new.card.card ≡ self.old.card.card }
    {
        self.below().set_script(script);
        Some(())
    }

    fn dump(&mut self, n: u32, sector: &mut [u8]) -> Result<(), Refusal>
        ensures reads { ReadAt (flatOf self.old.card.card.bytes.items) (flatOf self.new.card.card.bytes.items) n sector.old sector.new result }
        ensures script { self.new.card.script ≡ self.old.card.script }
        ensures powered { self.new.card.powered ≡ self.old.card.powered }
    {
        let layer = self.below();
        let bottom = layer.below();
        bottom.read(n, sector)
    }
}

impl Bench for BatteryCard {
    fn cut(&mut self, _script: Script) -> Option<()>
        ensures { (result ≡ None) × (self.new ≡ self.old) }
    {
        None
    }

    fn dump(&mut self, n: u32, sector: &mut [u8]) -> Result<(), Refusal>
        ensures { ReadAt (flatOf self.old.card.bytes.items) (flatOf self.new.card.bytes.items) n sector.old sector.new result }
    {
        self.read(n, sector)
    }
}
