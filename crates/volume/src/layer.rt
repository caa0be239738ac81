// The volume is again a card: it shows its data sectors deciphered, and has the power of its store.
ghost use Rattle.std.specs.Borrow.{follows, sem};
ghost use Rattle.volume.specs.contracts.state.Volume.{the_row};
ghost use Rattle.std.specs.Prelude.{◌≡◌, Bool, length};
ghost use Rattle.card.specs.Calls.{Counted as CardCounted, PoweredUp, ReadAt, WroteAt};
ghost use Rattle.keys.specs.Rings.{suite_of};
ghost use Rattle.law.specs.Shown.{as_card};
ghost use Rattle.law.specs.Calls.{Counted, PowersUp, Read, Wrote};
ghost use Rattle.showing.specs.Showing.{ShowsWritten};
ghost use Rattle.volume.specs.States.{state_of};
ghost use Rattle.volume.specs.Looks.{Found};
ghost use Rattle.volume.specs.Answers.{read_into, KeptIfRefused};
ghost use Rattle.showing.proofs.Cards.{card_sound};
ghost use Rattle.volume.specs.Steadiness.{steady};

use crate::state::{Seen, Volume};
use card::{Card, SECTOR_BYTES, WholeStore};
use keys::LoadedKey;
use refusal::Refusal;

impl<K: LoadedKey + Drop, S: WholeStore> Card for Volume<K, S> {
    ghost meaning = { λ v. as_card (suite_of K.LoadedKey) (state_of K.LoadedKey S.Card v) };

    ghost sound = { λ v. card_sound (suite_of K.LoadedKey.own) (record { number = K.LoadedKey.byte; inverse = K.LoadedKey.inverse }) (state_of K.LoadedKey.own S.Card.own v) (steady K.LoadedKey.own K.LoadedKey.keyed S.Card.own S.Card.sound v) };

    fn count(&mut self) -> Result<u32, Refusal>
        ensures shows { CardCounted (as_card (suite_of K.LoadedKey) (state_of K.LoadedKey S.Card self.old)) (as_card (suite_of K.LoadedKey) (state_of K.LoadedKey S.Card self.new)) result }
        ensures does { Counted (suite_of K.LoadedKey) (state_of K.LoadedKey S.Card self.old) result (state_of K.LoadedKey S.Card self.new) }
    {
        self.shown_count()
    }

    fn power_up(&mut self) -> Result<(), Refusal>
        ensures shows { PoweredUp (as_card (suite_of K.LoadedKey) (state_of K.LoadedKey S.Card self.old)) (as_card (suite_of K.LoadedKey) (state_of K.LoadedKey S.Card self.new)) result }
        ensures does { PowersUp (suite_of K.LoadedKey) (state_of K.LoadedKey S.Card self.old) result (state_of K.LoadedKey S.Card self.new) }
    {
        self.store.power_up()
    }

    fn read(&mut self, n: u32, buf: &mut [u8]) -> Result<(), Refusal>
        ensures shows { ReadAt (as_card (suite_of K.LoadedKey) (state_of K.LoadedKey S.Card self.old)) (as_card (suite_of K.LoadedKey) (state_of K.LoadedKey S.Card self.new)) n buf.old buf.new result }
        ensures does { Read (suite_of K.LoadedKey) (state_of K.LoadedKey S.Card self.old) n (length buf.old) (read_into result buf.new) (state_of K.LoadedKey S.Card self.new) }
        ensures keeps { KeptIfRefused result buf.old buf.new }
    {
        self.open_into(n, buf)
    }

    fn write(&mut self, n: u32, bytes: &[u8]) -> Result<(), Refusal>
        ensures shows { WroteAt (as_card (suite_of K.LoadedKey) (state_of K.LoadedKey S.Card self.old)) (as_card (suite_of K.LoadedKey) (state_of K.LoadedKey S.Card self.new)) n bytes.now result }
        ensures does { (took : Bool) × Wrote (suite_of K.LoadedKey) (state_of K.LoadedKey S.Card self.old) n bytes.now took result (state_of K.LoadedKey S.Card self.new) }
        ensures written { ShowsWritten (suite_of K.LoadedKey) (state_of K.LoadedKey S.Card self.old) n bytes.now result (state_of K.LoadedKey S.Card self.new) }
    {
        self.put_sealed(n, bytes)
    }
}

impl<K: LoadedKey + Drop, S: WholeStore> Volume<K, S> {
    // The number of data sectors, where the trailer is valid and the loaded keys fit it.
    fn shown_count(&mut self) -> Result<u32, Refusal>
        ensures { Counted (suite_of K.LoadedKey) (state_of K.LoadedKey S.Card self.old) result (state_of K.LoadedKey S.Card self.new) }
    {
        match self.look()? {
            Some(seen) if self.keys.fits(&seen.trailer) => Ok(seen.trailer.reach),
            _ => Ok(0),
        }
    }

    // The trailer, for a data sector that is there.
    fn find(&mut self, n: u32) -> Result<Seen, Refusal>
        ensures { Found (suite_of K.LoadedKey) (state_of K.LoadedKey S.Card self.old) n result (state_of K.LoadedKey S.Card self.new) }
    {
        match self.look()? {
            Some(seen) if self.keys.fits(&seen.trailer) && n < seen.trailer.reach => Ok(seen),
            _ => Err(Refusal::OutOfRange),
        }
    }

    // Reads a data sector and deciphers it in the buffer.
    fn open_into(&mut self, n: u32, buf: &mut [u8]) -> Result<(), Refusal>
        ensures does { Read (suite_of K.LoadedKey) (state_of K.LoadedKey S.Card self.old) n (length buf.old) (read_into result buf.new) (state_of K.LoadedKey S.Card self.new) }
        ensures keeps { KeptIfRefused result buf.old buf.new }
    {
        if buf.len() != SECTOR_BYTES {
            return Err(Refusal::WrongLength);
        }
        let seen = self.find(n)?;
        let key = self.keys.having(&seen.trailer.named(n)).unwrap();
        self.store.read(seen.place(n), buf)?;
        key.open(u64::from(n), buf)
    }

    // Enciphers a data sector and puts it.
    fn put_sealed(&mut self, n: u32, bytes: &[u8]) -> Result<(), Refusal>
        ensures { (took : Bool) × Wrote (suite_of K.LoadedKey) (state_of K.LoadedKey S.Card self.old) n bytes.now took result (state_of K.LoadedKey S.Card self.new) }
    {
        if bytes.len() != SECTOR_BYTES {
            return Err(Refusal::WrongLength);
        }
        let seen = self.find(n)?;
        let owner = self.keys.having(&seen.trailer.named(n)).unwrap();
        // `<[u8; 520]>::try_from(bytes)` was tried: the proof of the put did not close over it.
        let mut sector = [0u8; SECTOR_BYTES];
        sector.copy_from_slice(bytes);
        owner.seal(u64::from(n), &mut sector)?;
        self.store.put_one(seen.place(n), &sector)
    }
}

impl<K, S> Volume<K, S> {
    // The store, lent: nothing else of the volume changes.
    pub fn below(&mut self) -> &mut S
        ensures lent { result.now ≡ self.old.store }
        ensures* lends { sem 𝓛 (follows (the_row K.row S.row) S.row self.entry.ghost_name result.ghost_name (λ w. record { store = w; keys = self.old.keys; permit_out = self.old.permit_out })) }
    {
        &mut self.store
    }
}
