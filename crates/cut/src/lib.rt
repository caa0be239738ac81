// The cut layer: a card over any card that loses power by a script, for trying what a power cut leaves.
#![tactic(auto)]

ghost use Rattle.std.specs.Prelude.{◌≡◌, true, false, Some, None};
ghost use Rattle.std.specs.Borrow.{sem, follows};
ghost use Rattle.cut.specs.contracts.Cut.{the_row};
ghost use Rattle.card.specs.Calls.{Counted, PoweredUp, ReadAt, WroteAt};
ghost use Rattle.cut.specs.Losses.{loss_of, kind_of};
ghost use Rattle.cut.specs.Cuts.{meaning_of, state_of, Stepped, Tested, Left, CutRead, CutWrote, CutCounted, CutPoweredUp};
ghost use Rattle.std.proofs.Common.{rules};

use card::{Card, SECTOR_BYTES};
use refusal::Refusal;

// What a write that loses power leaves in its sector: the old bytes, the new, or 90 in every byte.
#[derive(Clone, Copy, PartialEq, Eq, Debug)]
pub enum Loss {
    Old = 0,
    New = 1,
    Junk = 2,
}

// The kind that a script says a loss by. Of the many that say junk, it is 2.
impl From<Loss> for u8 {
    ghost from_gives = { λ loss kind. kind ≡ kind_of loss };

    fn from(loss: Loss) -> u8 {
        loss as u8
    }
}

// Every kind says a loss: 0 and 1 the first two, and any other the last.
impl From<u8> for Loss {
    ghost from_gives = { λ kind loss. loss ≡ loss_of kind };

    fn from(kind: u8) -> Loss {
        match kind {
            0 => Loss::Old,
            1 => Loss::New,
            _ => Loss::Junk,
        }
    }
}

// Serves `left` further accesses; the next one loses power. The kind says what a write so lost leaves in its sector: the
// old bytes (0), the new (1), or 90 in every byte (any other). It is a number, since a caller may have any of the 256.
#[derive(Clone, Copy)]
pub struct Script {
    pub left: u32,
    pub kind: u8,
}

#[derive(Drop)]
pub struct Cut<C> {
    card: C,
    script: Option<Script>,
    powered: bool,
}

impl<C> Cut<C> {
    // Over a card, at first with no script.
    pub fn new(card: C) -> Cut<C>
        ensures { (result.card ≡ card) × (result.script ≡ None) × (result.powered ≡ true) }
    {
        Cut {
            card,
            script: None,
            powered: true,
        }
    }

    pub fn set_script(&mut self, script: Script)
        ensures { (self.new.script ≡ Some script) × (self.new.card ≡ self.old.card) × (self.new.powered ≡ self.old.powered) }
    {
        self.script = Some(script);
    }

    // The card below, lent: nothing else of the layer changes.
    pub fn below(&mut self) -> &mut C
        ensures lent { result.now ≡ self.old.card }
        ensures* lends { sem 𝓛 (follows (the_row C.row) C.row self.entry.ghost_name result.ghost_name (λ w. record { card = w; script = self.old.script; powered = self.old.powered })) }
    {
        &mut self.card
    }

    // Counts one access: what its loss leaves, where it loses power.
    fn step(&mut self) -> Option<Loss>
        ensures { Stepped self.old.script self.old.powered self.new.script self.new.powered result × (self.new.card ≡ self.old.card) }
    {
        let script = self.script?;
        if script.left == 0 {
            self.script = None;
            self.powered = false;
            return Some(Loss::from(script.kind));
        }
        self.script = Some(Script {
            left: script.left - 1,
            ..script
        });
        None
    }
}

impl<C: Card> Card for Cut<C> {
    ghost meaning = { meaning_of C.Card.meaning };

    ghost sound = { Prim.search rules };

    fn count(&mut self) -> Result<u32, Refusal>
        ensures card { Counted (meaning_of C.Card.meaning self.old) (meaning_of C.Card.meaning self.new) result }
        ensures cut { CutCounted (state_of C.Card.meaning self.old) (state_of C.Card.meaning self.new) result }
    {
        if self.powered {
            self.card.count()
        } else {
            Err(Refusal::PowerOff)
        }
    }

    fn power_up(&mut self) -> Result<(), Refusal>
        ensures card { PoweredUp (meaning_of C.Card.meaning self.old) (meaning_of C.Card.meaning self.new) result }
        ensures cut { CutPoweredUp (state_of C.Card.meaning self.old) (state_of C.Card.meaning self.new) result }
    {
        self.script = None;
        self.card.power_up()?;
        self.powered = true;
        Ok(())
    }

    fn read(&mut self, n: u32, buf: &mut [u8]) -> Result<(), Refusal>
        ensures card { ReadAt (meaning_of C.Card.meaning self.old) (meaning_of C.Card.meaning self.new) n buf.old buf.new result }
        ensures cut { CutRead (state_of C.Card.meaning self.old) (state_of C.Card.meaning self.new) n buf.old buf.new result }
    {
        self.test(n, buf)?;
        match self.step() {
            None => self.card.read(n, buf),
            Some(_) => Err(Refusal::PowerOff),
        }
    }

    fn write(&mut self, n: u32, bytes: &[u8]) -> Result<(), Refusal>
        ensures card { WroteAt (meaning_of C.Card.meaning self.old) (meaning_of C.Card.meaning self.new) n bytes.now result }
        ensures cut { CutWrote (state_of C.Card.meaning self.old) (state_of C.Card.meaning self.new) n bytes.now result }
    {
        self.test(n, bytes)?;
        match self.step() {
            None => self.card.write(n, bytes),
            Some(loss) => {
                self.lose(loss, n, bytes);
                Err(Refusal::PowerOff)
            }
        }
    }
}

impl<C: Card> Cut<C> {
    // The tests of an access: the length, the power, the number.
    fn test(&mut self, n: u32, bytes: &[u8]) -> Result<(), Refusal>
        ensures { Tested (state_of C.Card.meaning self.old) (state_of C.Card.meaning self.new) n bytes.now result }
    {
        if bytes.len() != SECTOR_BYTES {
            return Err(Refusal::WrongLength);
        }
        if !self.powered {
            return Err(Refusal::PowerOff);
        }
        let count = self.card.count()?;
        if n >= count {
            return Err(Refusal::OutOfRange);
        }
        Ok(())
    }

    // What a lost write leaves below. Whatever the card below answers, the power is gone.
    #[tactic(auto, unfolding(crate::specs::Cuts::junk))]
    fn lose(&mut self, loss: Loss, n: u32, bytes: &[u8])
        ensures same { (self.new.powered ≡ self.old.powered) × (self.new.script ≡ self.old.script) }
        ensures left { Left loss (C.Card.meaning self.old.card) (C.Card.meaning self.new.card) n bytes.now }
    {
        match loss {
            Loss::Old => {}
            Loss::New => {
                let _ = self.card.write(n, bytes);
            }
            Loss::Junk => {
                let _ = self.card.write(n, &[90u8; SECTOR_BYTES]);
            }
        }
    }
}
