// The calls of a volume that are no calls of a card.
ghost use Rattle.std.specs.Prelude.{◌≡◌, Bool, false, [], length};
ghost use Rattle.keys.specs.Rings.{suite_of};
ghost use Rattle.law.specs.Calls.{Loaded, Formatted, Claimed, Begun, Stepped, Finished, HandedIn};
ghost use Rattle.showing.specs.Showing.{Kept, KeptUnlessLoaded, ShowsFormatted};
ghost use Rattle.volume.specs.States.{state_of};
ghost use Rattle.volume.specs.Looks.{Looked, Fitted};
ghost use Rattle.volume.specs.Answers.{given_keys, stage_of, verdict, Wiped};

use crate::permits::{Changing, Permit, Resting};
use crate::state::{Seen, Volume};
use card::{Card, SECTOR_BYTES, WholeStore};
use keys::{Keyring, LoadedKey};
use refusal::Refusal;
use trailer::{Stage, Trailer};

impl<K: LoadedKey + Drop, S: WholeStore> Volume<K, S> {
    // A volume over a store, with no key loaded.
    pub fn new(store: S) -> Volume<K, S>
        ensures state { state_of K.LoadedKey S.Card result ≡ record { store = S.Card.meaning store; keys = []; out = false } }
        ensures below { result.store ≡ store }
    {
        Volume {
            store,
            keys: Keyring::Empty,
            permit_out: false,
        }
    }

    // Reads the trailer afresh; gives none where it is not valid.
    pub(crate) fn look(&mut self) -> Result<Option<Seen>, Refusal>
        ensures store { Looked K.LoadedKey.numbered (S.Card.meaning self.old.store) result (S.Card.meaning self.new.store) }
        ensures keys { self.new.keys ≡ self.old.keys }
        ensures out { self.new.permit_out ≡ self.old.permit_out }
    {
        let total = self.store.count()?;
        if total == 0 {
            return Ok(None);
        }
        let last = total - 1;
        let mut sector = [0u8; SECTOR_BYTES];
        self.store.read(last, &mut sector)?;
        match Trailer::decode(&sector, K::own_number(), last) {
            None => Ok(None),
            Some(trailer) => Ok(Some(Seen { last, trailer })),
        }
    }

    // The trailer, which has to be valid, and which the loaded keys have to fit.
    fn look_fitting(&mut self) -> Result<Seen, Refusal>
        ensures { Fitted (suite_of K.LoadedKey) (state_of K.LoadedKey S.Card self.old) result (state_of K.LoadedKey S.Card self.new) }
    {
        let Some(seen) = self.look()? else {
            return Err(Refusal::InvalidTrailer);
        };
        if !self.keys.fits(&seen.trailer) {
            return Err(Refusal::UnfitKey);
        }
        Ok(seen)
    }

    // Takes one or two keys in place of those loaded.
    pub fn load(&mut self, first: &[u8], second: Option<&[u8]>) -> Result<(), Refusal>
        ensures does { Loaded (suite_of K.LoadedKey) (state_of K.LoadedKey S.Card self.old) (given_keys first.now second.entry) result (state_of K.LoadedKey S.Card self.new) }
        ensures shows { KeptUnlessLoaded (suite_of K.LoadedKey) (state_of K.LoadedKey S.Card self.old) result (state_of K.LoadedKey S.Card self.new) }
    {
        self.take_keys(first, second)
    }

    // All lengths are tested before the halves.
    fn take_keys(&mut self, first: &[u8], second: Option<&[u8]>) -> Result<(), Refusal>
        ensures { Loaded (suite_of K.LoadedKey) (state_of K.LoadedKey S.Card self.old) (given_keys first.now second.entry) result (state_of K.LoadedKey S.Card self.new) }
    {
        if self.permit_out {
            return Err(Refusal::PermitOut);
        }
        match second {
            None => self.keys = Keyring::One(K::new(first)?),
            Some(second) => {
                if first.len() != 64 || second.len() != 64 {
                    return Err(Refusal::WrongLength);
                }
                self.keys = Keyring::Two(K::new(first)?, K::new(second)?);
            }
        }
        Ok(())
    }

    // Puts a resting trailer under the first key loaded, and nothing else.
    pub fn format(&mut self, reach: u32, label: &[u8]) -> Result<(), Refusal>
        ensures does { (took : Bool) × Formatted (suite_of K.LoadedKey) (state_of K.LoadedKey S.Card self.old) reach label.now took result (state_of K.LoadedKey S.Card self.new) }
        ensures shows { ShowsFormatted (suite_of K.LoadedKey) (state_of K.LoadedKey S.Card self.old) reach result (state_of K.LoadedKey S.Card self.new) }
    {
        self.put_fresh(reach, label)
    }

    fn put_fresh(&mut self, reach: u32, label: &[u8]) -> Result<(), Refusal>
        ensures { (took : Bool) × Formatted (suite_of K.LoadedKey) (state_of K.LoadedKey S.Card self.old) reach label.now took result (state_of K.LoadedKey S.Card self.new) }
    {
        if self.permit_out {
            return Err(Refusal::PermitOut);
        }
        let Ok(own) = <[u8; 16]>::try_from(label) else {
            return Err(Refusal::WrongLength);
        };
        let total = self.store.count()?;
        if reach == 0 || reach >= total {
            return Err(Refusal::OutOfRange);
        }
        let Some(key) = self.keys.first() else {
            return Err(Refusal::UnfitKey);
        };
        let fresh = Trailer::fresh(reach, key.check(), own);
        self.store
            .put_one(total - 1, &fresh.encode(K::own_number()))
    }

    // Hands out a permit by the trailer's stage; it is out until it is handed in.
    pub fn claim(&mut self) -> Result<Permit, Refusal>
        ensures does { Claimed (suite_of K.LoadedKey) (state_of K.LoadedKey S.Card self.old) (stage_of result) (state_of K.LoadedKey S.Card self.new) }
        ensures shows { Kept (suite_of K.LoadedKey) (state_of K.LoadedKey S.Card self.old) (state_of K.LoadedKey S.Card self.new) }
    {
        self.hand_out()
    }

    fn hand_out(&mut self) -> Result<Permit, Refusal>
        ensures { Claimed (suite_of K.LoadedKey) (state_of K.LoadedKey S.Card self.old) (stage_of result) (state_of K.LoadedKey S.Card self.new) }
    {
        if self.permit_out {
            return Err(Refusal::PermitOut);
        }
        let seen = self.look_fitting()?;
        self.permit_out = true;
        Ok(Permit::issue(seen.trailer.stage))
    }

    // Begins a change to the other loaded key. A refusal gives the permit back.
    pub fn begin(&mut self, permit: Resting) -> Result<Changing, (Refusal, Resting)>
        ensures does { (took : Bool) × Begun (suite_of K.LoadedKey) (state_of K.LoadedKey S.Card self.old) took (verdict result) (state_of K.LoadedKey S.Card self.new) }
        ensures shows { Kept (suite_of K.LoadedKey) (state_of K.LoadedKey S.Card self.old) (state_of K.LoadedKey S.Card self.new) }
    {
        permit.exchanged(self.put_begun())
    }

    fn put_begun(&mut self) -> Result<(), Refusal>
        ensures { (took : Bool) × Begun (suite_of K.LoadedKey) (state_of K.LoadedKey S.Card self.old) took result (state_of K.LoadedKey S.Card self.new) }
    {
        let seen = self.look_fitting()?;
        let old = seen.trailer;
        if let Stage::Changing = old.stage {
            return Err(Refusal::WrongStage);
        }
        let Some(other) = self.keys.other(&old.first) else {
            return Err(Refusal::UnfitKey);
        };
        let begun = old.begun(other.check());
        self.store
            .put_one(seen.last, &begun.encode(K::own_number()))
    }

    // Moves one data sector to the new key and answers the new watermark. However it leaves once the work buffer had the
    // right length, that buffer is all zero: it held the sector in clear.
    pub fn step(&mut self, _permit: &Changing, work: &mut [u8]) -> Result<u32, Refusal>
        ensures does { (took : Bool) × Stepped (suite_of K.LoadedKey) (state_of K.LoadedKey S.Card self.old) (length work.old) took result (state_of K.LoadedKey S.Card self.new) }
        ensures wiped { Wiped work.old work.new }
        ensures shows { Kept (suite_of K.LoadedKey) (state_of K.LoadedKey S.Card self.old) (state_of K.LoadedKey S.Card self.new) }
    {
        if work.len() != SECTOR_BYTES {
            return Err(Refusal::WrongLength);
        }
        let reply = self.move_one(work);
        work.fill(0);
        reply
    }

    // The data sector at the watermark, under the new key, and the trailer go in one put.
    fn move_one(&mut self, work: &mut [u8]) -> Result<u32, Refusal>
        requires { length work.old ≡ 520 }
        ensures does { (took : Bool) × Stepped (suite_of K.LoadedKey) (state_of K.LoadedKey S.Card self.old) 520 took result (state_of K.LoadedKey S.Card self.new) }
        ensures long { length work.new ≡ 520 }
    {
        let seen = self.look_fitting()?;
        let old = seen.trailer;
        if let Stage::Resting = old.stage {
            return Err(Refusal::WrongStage);
        }
        let Some(next) = old.moved() else {
            return Err(Refusal::NothingLeft);
        };
        let from = self.keys.having(&old.first).unwrap();
        let to = self.keys.having(&old.second).unwrap();
        let place = seen.place(old.watermark);
        self.store.read(place, work)?;
        from.open(u64::from(old.watermark), work)?;
        to.seal(u64::from(old.watermark), work)?;
        self.store
            .put_two(place, work, seen.last, &next.encode(K::own_number()))?;
        Ok(next.watermark)
    }

    // Ends a change once no sector is left: the new key is the volume's. A refusal gives the permit back.
    pub fn finish(&mut self, permit: Changing) -> Result<Resting, (Refusal, Changing)>
        ensures does { (took : Bool) × Finished (suite_of K.LoadedKey) (state_of K.LoadedKey S.Card self.old) took (verdict result) (state_of K.LoadedKey S.Card self.new) }
        ensures shows { Kept (suite_of K.LoadedKey) (state_of K.LoadedKey S.Card self.old) (state_of K.LoadedKey S.Card self.new) }
    {
        permit.exchanged(self.put_finished())
    }

    fn put_finished(&mut self) -> Result<(), Refusal>
        ensures { (took : Bool) × Finished (suite_of K.LoadedKey) (state_of K.LoadedKey S.Card self.old) took result (state_of K.LoadedKey S.Card self.new) }
    {
        let seen = self.look_fitting()?;
        let old = seen.trailer;
        if let Stage::Resting = old.stage {
            return Err(Refusal::WrongStage);
        }
        if old.watermark < old.reach {
            return Err(Refusal::SectorsLeft);
        }
        self.store
            .put_one(seen.last, &old.finished().encode(K::own_number()))
    }

    // Takes back either permit.
    pub fn hand_in(&mut self, permit: Permit)
        ensures does { HandedIn (suite_of K.LoadedKey) (state_of K.LoadedKey S.Card self.old) (state_of K.LoadedKey S.Card self.new) }
        ensures shows { Kept (suite_of K.LoadedKey) (state_of K.LoadedKey S.Card self.old) (state_of K.LoadedKey S.Card self.new) }
    {
        permit.spend();
        self.permit_out = false;
    }
}
