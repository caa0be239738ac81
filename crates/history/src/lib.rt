// Any succession of calls on a volume, with the law over all of it.
#![tactic(auto)]

ghost use Rattle.std.specs.Prelude.{◌≡◌, ℕ, Bool, false, List, [], length, None, MatchResult};
ghost use Rattle.keys.specs.Rings.{suite_of};
ghost use Rattle.law.specs.States.{lent};
ghost use Rattle.std.specs.Borrow.{follows, sem};
ghost use Rattle.history.specs.contracts.drive.Drive.{the_row};
ghost use Rattle.law.specs.Calls.{Loaded, Formatted, Read, Wrote};
ghost use Rattle.octets.specs.Little.{Bytes};
ghost use Rattle.std.specs.List.{AllByRecursion};
ghost use Rattle.volume.specs.Answers.{given_keys};
ghost use Rattle.volume.specs.States.{state_of};
ghost use Rattle.history.specs.Scripts.{held_stage, read_works, Played};
ghost use Rattle.history.specs.Drives.{Made, MadeWithoutWork};

use card::{Card, SECTOR_BYTES, WholeStore};
use keys::LoadedKey;
use refusal::Refusal;
use std::alloc::{AllocError, Global};
use volume::{Permit, Volume};

mod drive;
mod script;

pub use drive::Drive;
pub use script::{Call, Entry};

fn load<K: LoadedKey + Drop, S: WholeStore>(
    volume: &mut Volume<K, S>,
    first: &[u8],
    second: Option<&[u8]>,
) -> Result<(), Refusal>
    ensures does { Loaded (suite_of K.LoadedKey) (state_of K.LoadedKey S.Card volume.old) (given_keys first.now second.entry) result (state_of K.LoadedKey S.Card volume.new) }
    ensures given { AllByRecursion (λ k. Bytes (length k) k) (given_keys first.now second.entry) }
    ensures out { volume.new.permit_out ≡ volume.old.permit_out }
{
    octets::all_bytes(first);
    if let Some(second) = second {
        octets::all_bytes(second);
    }
    volume.load(first, second)
}

fn format<K: LoadedKey + Drop, S: WholeStore>(
    volume: &mut Volume<K, S>,
    reach: u32,
    label: &[u8],
) -> Result<(), Refusal>
    ensures does { (took : Bool) × Formatted (suite_of K.LoadedKey) (state_of K.LoadedKey S.Card volume.old) reach label.now took result (state_of K.LoadedKey S.Card volume.new) }
    ensures given { Bytes (length label.now) label.now }
    ensures out { volume.new.permit_out ≡ volume.old.permit_out }
{
    octets::all_bytes(label);
    volume.format(reach, label)
}

fn write<K: LoadedKey + Drop, S: WholeStore>(
    volume: &mut Volume<K, S>,
    n: u32,
    bytes: &[u8],
) -> Result<(), Refusal>
    ensures does { (took : Bool) × Wrote (suite_of K.LoadedKey) (state_of K.LoadedKey S.Card volume.old) n bytes.now took result (state_of K.LoadedKey S.Card volume.new) }
    ensures given { Bytes (length bytes.now) bytes.now }
    ensures out { volume.new.permit_out ≡ volume.old.permit_out }
{
    octets::all_bytes(bytes);
    volume.write(n, bytes)
}

// Reads into the work buffer, and gives what was read.
fn read<K: LoadedKey + Drop, S: WholeStore>(
    volume: &mut Volume<K, S>,
    n: u32,
    work: &mut [u8],
) -> Result<[u8; SECTOR_BYTES], Refusal>
    ensures does { Read (suite_of K.LoadedKey) (state_of K.LoadedKey S.Card volume.old) n (length work.old) result (state_of K.LoadedKey S.Card volume.new) }
    ensures works { work.new ≡ read_works result work.old }
    ensures out { volume.new.permit_out ≡ volume.old.permit_out }
{
    volume.read(n, work)?;
    let mut bytes = [0u8; SECTOR_BYTES];
    bytes.copy_from_slice(work);
    Ok(bytes)
}

impl<K: LoadedKey + Drop, S: WholeStore> Drive<K, S> {
    // A drive over a store, with no key loaded and no permit out.
    pub fn new(store: S) -> Drive<K, S>
        ensures state { state_of K.LoadedKey S.Card result.volume ≡ record { store = S.Card.meaning store; keys = []; out = false } }
        ensures held { held_stage result.permit ≡ None }
        ensures below { result.volume.store ≡ store }
    {
        Drive {
            volume: Volume::new(store),
            permit: None,
        }
    }

    // A claim while a permit is held is made too: it is refused, since that permit is out.
    fn claim<'a>(&mut self) -> Entry<'a>
        ensures { MadeWithoutWork K.LoadedKey S.Card self.old Call.Claim result self.new }
    {
        match self.volume.claim() {
            Ok(permit) => {
                let stage = permit.stage();
                self.permit = Some(permit);
                Entry::Claimed(Ok(stage))
            }
            Err(e) => Entry::Claimed(Err(e)),
        }
    }

    // `begin` and `finish` are alike but for their permits: one body for both would need a trait only to put each permit
    // back into its case of `Permit`.
    fn begin<'a>(&mut self) -> Entry<'a>
        ensures { MadeWithoutWork K.LoadedKey S.Card self.old Call.Begin result self.new }
    {
        match self.permit.take() {
            Some(Permit::Resting(p)) => match self.volume.begin(p) {
                Ok(q) => {
                    self.permit = Some(Permit::Changing(q));
                    Entry::Begun(Ok(()))
                }
                Err((e, p)) => {
                    self.permit = Some(Permit::Resting(p));
                    Entry::Begun(Err(e))
                }
            },
            held => {
                self.permit = held;
                Entry::NotMade(Call::Begin)
            }
        }
    }

    fn step<'a>(&mut self, work: &mut [u8]) -> Entry<'a>
        ensures { Made K.LoadedKey S.Card self.old Call.Step work.old result self.new work.new }
    {
        match &self.permit {
            Some(Permit::Changing(p)) => Entry::Stepped(self.volume.step(p, work)),
            _ => Entry::NotMade(Call::Step),
        }
    }

    fn finish<'a>(&mut self) -> Entry<'a>
        ensures { MadeWithoutWork K.LoadedKey S.Card self.old Call.Finish result self.new }
    {
        match self.permit.take() {
            Some(Permit::Changing(p)) => match self.volume.finish(p) {
                Ok(q) => {
                    self.permit = Some(Permit::Resting(q));
                    Entry::Finished(Ok(()))
                }
                Err((e, p)) => {
                    self.permit = Some(Permit::Changing(p));
                    Entry::Finished(Err(e))
                }
            },
            held => {
                self.permit = held;
                Entry::NotMade(Call::Finish)
            }
        }
    }

    fn hand_in<'a>(&mut self) -> Entry<'a>
        ensures { MadeWithoutWork K.LoadedKey S.Card self.old Call.HandIn result self.new }
    {
        match self.permit.take() {
            Some(p) => {
                self.volume.hand_in(p);
                Entry::HandedIn
            }
            None => Entry::NotMade(Call::HandIn),
        }
    }

    // Makes one call, with the permit that is held where it takes one.
    fn make<'a>(&mut self, call: Call<'a>, work: &mut [u8]) -> Entry<'a>
        ensures { Made K.LoadedKey S.Card self.old call.entry work.old result self.new work.new }
    {
        match call {
            Call::PowerUp => Entry::PoweredUp(self.volume.power_up()),
            Call::Count => Entry::Counted(self.volume.count()),
            Call::Load(first, second) => {
                Entry::Loaded(first, second, load(&mut self.volume, first, second))
            }
            Call::Format(reach, label) => {
                Entry::Formatted(reach, label, format(&mut self.volume, reach, label))
            }
            Call::Read(n) => Entry::Read(n, read(&mut self.volume, n, work)),
            Call::Write(n, bytes) => Entry::Wrote(n, bytes, write(&mut self.volume, n, bytes)),
            Call::Claim => self.claim(),
            Call::Begin => self.begin(),
            Call::Step => self.step(work),
            Call::Finish => self.finish(),
            Call::HandIn => self.hand_in(),
        }
    }

    // Makes the calls of a script, one after the other, and gives what each answered. Reads and steps use the work buffer.
    // Whatever run led from a format to the state at entry, that run and these calls keep the law; and so do the calls
    // after each format among them. Where the log finds no memory, no call is made.
    pub fn run<'a>(
        &mut self,
        heap: Global,
        script: &[Call<'a>],
        work: &mut [u8],
    ) -> Result<Vec<Entry<'a>>, AllocError>
        ensures { MatchResult result (λ log. Played (suite_of K.LoadedKey) (state_of K.LoadedKey S.Card self.old.volume) (held_stage self.old.permit) work.old script.now log.items (state_of K.LoadedKey S.Card self.new.volume) (held_stage self.new.permit) work.new) (λ _. (self.new ≡ self.old) × (work.new ≡ work.old)) }
    {
        let mut log = Vec::with_capacity(heap, script.len())?;
        for call in script {
            let entry = self.make(*call, work);
            log.push_reserved(entry);
        }
        Ok(log)
    }

    // Ends the drive's work: hands in the permit that is still out, and gives the volume.
    pub fn close(self) -> Volume<K, S>
        ensures { state_of K.LoadedKey S.Card result ≡ lent (state_of K.LoadedKey S.Card self.volume) false }
    {
        let Drive { mut volume, permit } = self;
        if let Some(permit) = permit {
            volume.hand_in(permit);
        }
        volume
    }
}

impl<K, S> Drive<K, S> {
    // The store, lent: nothing else of the drive changes.
    pub fn below(&mut self) -> &mut S
        ensures lent { result.now ≡ self.old.volume.store }
        ensures* lends { sem 𝓛 (follows (the_row K.row S.row) S.row self.entry.ghost_name result.ghost_name (λ w. record { volume = record { store = w; keys = self.old.volume.keys; permit_out = self.old.volume.permit_out }; permit = self.old.permit; together = self.old.together })) }
    {
        self.volume.below()
    }
}
