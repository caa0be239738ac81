// The journal: a card, over any card, whose puts of one or two sectors are whole. Of the N sectors below it shows the first
// N - 4, the places. The last four are its own: two spares, the slip and the flag.
//
// - A target is a place that a put replaces.
// - A spare holds the new bytes of a target.
// - The slip names the targets.
// - The flag, while it is raised, makes the put show: reads of a target then find its spare.
#![tactic(auto)]

ghost use Rattle.std.specs.Borrow.{follows, sem};
ghost use Rattle.std.specs.Prelude.{◌≡◌, ◌-◌, ◌<◌, ◌≢◌, Some, None, MatchResult, length};
ghost use Rattle.card.specs.Meaning.{count, at};
ghost use Rattle.card.specs.Calls.{PoweredUp, ReadAt, WroteAt, PutOne, PutTwo};
ghost use Rattle.journal.specs.contracts.Journal.{the_row};
ghost use Rattle.journal.specs.Journals.{journal_of, meaning_of, raised, slip as slip_in, pending_of, Idle};
ghost use Rattle.journal.specs.Steps.{IsLayout, LaidOut, Looked, WroteUnseen, WroteAll, AllUnseen, Copied, Replayed, Settled, FlagRaised, Staged, Made, Unseen, FlagUp, FlagDown, Ready, Fit, journal_under, place_of, targets_of, wrote};
ghost use Rattle.journal.specs.Shows.{journal_sound};

use card::{Card, SECTOR_BYTES, WholeStore};
use octets::all_are;
use refusal::Refusal;

mod layout;
mod put;
mod slip;

use layout::Layout;
use put::{Put, Write};
use slip::Targets;

// Each byte of a flag that is raised.
const RAISED: u8 = 0xa5;

#[derive(Drop)]
pub struct Journal<C> {
    // the card below
    card: C,
}

impl<C> Journal<C> {
    pub fn new(card: C) -> Journal<C>
        ensures { result.card ≡ card }
    {
        Journal { card }
    }

    // The card below, lent.
    pub fn below(&mut self) -> &mut C
        ensures lent { result.now ≡ self.old.card }
        ensures* lends { sem 𝓛 (follows (the_row C.row) C.row self.entry.ghost_name result.ghost_name (λ w. record { card = w })) }
    {
        &mut self.card
    }
}

// A buffer of the bytes of a sector.
fn sector(bytes: &[u8]) -> Result<&[u8; SECTOR_BYTES], Refusal>
    ensures { MatchResult result (λ s. (s.now ≡ bytes.now) × (length bytes.now ≡ 520)) (λ e. (e ≡ Refusal.WrongLength) × (length bytes.now ≢ 520)) }
{
    bytes.as_array().ok_or(Refusal::WrongLength)
}

// The sector below that shows at n.
fn place(pending: Option<Targets>, layout: Layout, n: u32) -> u32
    ensures { result ≡ place_of pending layout.total n }
{
    match pending {
        Some(targets) if targets.second == Some(n) => layout.second_spare(),
        Some(targets) if targets.first == n => layout.first_spare(),
        _ => n,
    }
}

impl<C: Card> Journal<C> {
    // Counts the sectors below. Fewer than five hold no journal.
    #[tactic(auto, using(crate::specs::Shows::shown_length))]
    fn layout(&mut self) -> Result<Layout, Refusal>
        ensures { LaidOut (C.Card.meaning self.old.card) (C.Card.meaning self.new.card) result }
    {
        let total = self.card.count()?;
        Layout::of(total).ok_or(Refusal::OutOfRange)
    }

    fn is_raised(&mut self, layout: Layout) -> Result<bool, Refusal>
        requires { IsLayout layout (C.Card.meaning self.old.card) }
        ensures { Looked (C.Card.meaning self.old.card) (C.Card.meaning self.new.card) (raised (C.Card.meaning self.old.card).sectors) result }
    {
        let mut flag = [0u8; SECTOR_BYTES];
        self.card.read(layout.flag(), &mut flag)?;
        Ok(all_are(&flag, RAISED))
    }

    // Which targets the slip says: none where it is not valid.
    fn targets(&mut self, layout: Layout) -> Result<Option<Targets>, Refusal>
        requires { IsLayout layout (C.Card.meaning self.old.card) }
        ensures { Looked (C.Card.meaning self.old.card) (C.Card.meaning self.new.card) (slip_in (C.Card.meaning self.old.card).sectors) result }
    {
        let mut slip = [0u8; SECTOR_BYTES];
        self.card.read(layout.slip(), &mut slip)?;
        Ok(Targets::of_slip(layout.places(), &slip))
    }

    // Which targets are pending.
    fn pending(&mut self, layout: Layout) -> Result<Option<Targets>, Refusal>
        requires { IsLayout layout (C.Card.meaning self.old.card) }
        ensures { Looked (C.Card.meaning self.old.card) (C.Card.meaning self.new.card) (pending_of (C.Card.meaning self.old.card).sectors) result }
    {
        if !self.is_raised(layout)? {
            return Ok(None);
        }
        self.targets(layout)
    }

    // A write that does not show, whatever it leaves where the power fails in it.
    fn write_unseen(&mut self, n: u32, bytes: &[u8; SECTOR_BYTES]) -> Result<(), Refusal>
        requires { Unseen (C.Card.meaning self.old.card) n }
        ensures { WroteUnseen (C.Card.meaning self.old.card) (C.Card.meaning self.new.card) n bytes.now result }
    {
        self.card.write(n, bytes)
    }

    // The writes of a put, where they do not show.
    fn write_all(&mut self, put: Put) -> Result<(), Refusal>
        requires { AllUnseen (C.Card.meaning self.old.card) put }
        ensures { WroteAll (C.Card.meaning self.old.card) (C.Card.meaning self.new.card) put.entry result }
    {
        self.write_unseen(put.first.n, put.first.bytes)?;
        match put.second {
            None => Ok(()),
            Some(second) => self.write_unseen(second.n, second.bytes),
        }
    }

    // A copy that does not show.
    fn copy_unseen(&mut self, from: u32, to: u32) -> Result<(), Refusal>
        requires source { from < count (C.Card.meaning self.old.card) }
        requires still { Unseen (C.Card.meaning self.old.card) to }
        ensures { WroteUnseen (C.Card.meaning self.old.card) (C.Card.meaning self.new.card) to (at (C.Card.meaning self.old.card) from) result }
    {
        let mut bytes = [0u8; SECTOR_BYTES];
        self.card.read(from, &mut bytes)?;
        self.write_unseen(to, &bytes)
    }

    // Copies the spares to their targets.
    fn replay(&mut self, layout: Layout, targets: Targets) -> Result<(), Refusal>
        requires { FlagUp (C.Card.meaning self.old.card) layout.total (Some targets) }
        ensures { Replayed (C.Card.meaning self.old.card) (C.Card.meaning self.new.card) layout.total result }
    {
        self.copy_unseen(layout.first_spare(), targets.first)?;
        match targets.second {
            None => Ok(()),
            Some(second) => self.copy_unseen(layout.second_spare(), second),
        }
    }

    // Lowers the flag, where the targets hold what the spares do.
    #[tactic(auto, using(crate::proofs::Settles::unseen_flag))]
    fn lower(&mut self, layout: Layout) -> Result<(), Refusal>
        requires { Copied (C.Card.meaning self.old.card) layout.total }
        ensures { Settled (C.Card.meaning self.old.card) (C.Card.meaning self.new.card) result }
    {
        self.write_unseen(layout.flag(), &[0u8; SECTOR_BYTES])
    }

    // Finishes what is pending. The slip may be written again only once the flag is lowered.
    fn settle(&mut self, layout: Layout) -> Result<(), Refusal>
        requires { IsLayout layout (C.Card.meaning self.old.card) }
        ensures { Settled (C.Card.meaning self.old.card) (C.Card.meaning self.new.card) result }
    {
        if !self.is_raised(layout)? {
            return Ok(());
        }
        match self.targets(layout)? {
            None => self.lower(layout),
            Some(targets) => {
                self.replay(layout, targets)?;
                self.lower(layout)
            }
        }
    }

    // Writes the spares, then the slip, while the flag is lowered: nothing shows.
    fn stage(&mut self, layout: Layout, put: Put) -> Result<(), Refusal>
        requires down { FlagDown (C.Card.meaning self.old.card) layout.total }
        requires fit { Fit (layout.total - 4) (Some (targets_of put)) }
        ensures { Staged (C.Card.meaning self.old.card) (C.Card.meaning self.new.card) layout.total (Some (targets_of put.entry)) (wrote (journal_of (C.Card.meaning self.old.card)) put.entry) result }
    {
        self.write_all(put.on_spares(layout))?;
        self.write_unseen(layout.slip(), &put.targets().slip())
    }

    // Raises the flag: from here on, what the slip says shows.
    fn raise(&mut self, layout: Layout) -> Result<(), Refusal>
        requires { FlagDown (C.Card.meaning self.old.card) layout.total }
        ensures { FlagRaised (C.Card.meaning self.old.card) (C.Card.meaning self.new.card) layout.total (slip_in (C.Card.meaning self.old.card).sectors) result }
    {
        self.card.write(layout.flag(), &[RAISED; SECTOR_BYTES])
    }

    // Makes a staged put show: the flag is raised, the places are written, and the flag is lowered.
    fn commit(&mut self, layout: Layout, put: Put) -> Result<(), Refusal>
        requires ready { Ready (C.Card.meaning self.old.card) layout.total (Some (targets_of put)) }
        requires spared { journal_under (Some (targets_of put)) (C.Card.meaning self.old.card) ≡ wrote (journal_of (C.Card.meaning self.old.card)) put }
        ensures { Made (C.Card.meaning self.old.card) (C.Card.meaning self.new.card) (wrote (journal_of (C.Card.meaning self.old.card)) put.entry) result }
    {
        self.raise(layout)?;
        self.write_all(put)?;
        self.lower(layout)
    }

    // A whole put.
    fn make(&mut self, layout: Layout, put: Put) -> Result<(), Refusal>
        requires is { IsLayout layout (C.Card.meaning self.old.card) }
        requires fit { Fit (layout.total - 4) (Some (targets_of put)) }
        ensures { Made (C.Card.meaning self.old.card) (C.Card.meaning self.new.card) (wrote (journal_of (C.Card.meaning self.old.card)) put.entry) result }
    {
        self.settle(layout)?;
        self.stage(layout, put)?;
        self.commit(layout, put)
    }
}

impl<C: Card> Card for Journal<C> {
    ghost meaning = { meaning_of C.Card.meaning };

    ghost sound = { λ c. journal_sound _ (C.Card.sound c.card) };

    #[tactic(auto, using(crate::specs::Shows::shown_length))]
    fn count(&mut self) -> Result<u32, Refusal> {
        let total = self.card.count()?;
        Ok(total.saturating_sub(4))
    }

    // Settles too, so that no put is pending once the power is on. Fewer than five sectors hold no journal.
    fn power_up(&mut self) -> Result<(), Refusal>
        ensures shows { PoweredUp (meaning_of C.Card.meaning self.old) (meaning_of C.Card.meaning self.new) result }
        ensures settles { Idle (C.Card.meaning self.new.card) result }
    {
        self.card.power_up()?;
        match Layout::of(self.card.count()?) {
            None => Ok(()),
            Some(layout) => self.settle(layout),
        }
    }

    // Writes nothing below, also where a put is pending.
    fn read(&mut self, n: u32, buf: &mut [u8]) -> Result<(), Refusal>
        ensures shows { ReadAt (meaning_of C.Card.meaning self.old) (meaning_of C.Card.meaning self.new) n buf.old buf.new result }
        ensures keeps { (C.Card.meaning self.new.card).sectors ≡ (C.Card.meaning self.old.card).sectors }
    {
        if buf.len() != SECTOR_BYTES {
            return Err(Refusal::WrongLength);
        }
        let layout = self.layout()?;
        if n >= layout.places() {
            return Err(Refusal::OutOfRange);
        }
        let pending = self.pending(layout)?;
        self.card.read(place(pending, layout, n), buf)
    }

    // A put of one sector, so it is whole too where the power fails in it.
    fn write(&mut self, n: u32, bytes: &[u8]) -> Result<(), Refusal>
        ensures shows { WroteAt (meaning_of C.Card.meaning self.old) (meaning_of C.Card.meaning self.new) n bytes.now result }
        ensures whole { PutOne (meaning_of C.Card.meaning self.old) (meaning_of C.Card.meaning self.new) n bytes.now result }
        ensures settles { Idle (C.Card.meaning self.new.card) result }
    {
        self.put_one(n, bytes)
    }
}

impl<C: Card> WholeStore for Journal<C> {
    fn put_one(&mut self, n: u32, bytes: &[u8]) -> Result<(), Refusal>
        ensures shows { PutOne (meaning_of C.Card.meaning self.old) (meaning_of C.Card.meaning self.new) n bytes.now result }
        ensures settles { Idle (C.Card.meaning self.new.card) result }
    {
        let bytes = sector(bytes)?;
        let layout = self.layout()?;
        if n >= layout.places() {
            return Err(Refusal::OutOfRange);
        }
        let first = Write { n, bytes };
        self.make(
            layout,
            Put {
                first,
                second: None,
            },
        )
    }

    fn put_two(&mut self, a: u32, x: &[u8], b: u32, y: &[u8]) -> Result<(), Refusal>
        ensures shows { PutTwo (meaning_of C.Card.meaning self.old) (meaning_of C.Card.meaning self.new) a x.now b y.now result }
        ensures settles { Idle (C.Card.meaning self.new.card) result }
    {
        let x = sector(x)?;
        let y = sector(y)?;
        let layout = self.layout()?;
        if a >= layout.places() || b >= layout.places() || a == b {
            return Err(Refusal::OutOfRange);
        }
        let first = Write { n: a, bytes: x };
        let second = Write { n: b, bytes: y };
        self.make(
            layout,
            Put {
                first,
                second: Some(second),
            },
        )
    }
}
