// One trial: a put on a fresh store, cut at a chosen access, and what its targets show afterwards.
use accesses::Access;
use card::{Card, FlatCard, SECTOR_BYTES, WholeStore};
use cut::{Cut, Loss, Script};
use journal::Journal;
use octets::all_are;
use refusal::Refusal;
use std::alloc::{AllocError, Global};
use std::fmt;

// A zeroed flat card of nine sectors: the journal shows five, and keeps two spares, the slip and the flag.
pub type Store = Journal<Cut<FlatCard>>;

const SECTORS: usize = 9;

const FLAG: u32 = 8;

const FIRST_TARGET: u32 = 1;

const SECOND_TARGET: u32 = 2;

const FIRST_BYTE: u8 = 7;

const SECOND_BYTE: u8 = 8;

#[derive(Clone, Copy)]
pub enum Put {
    One,
    Two,
}

impl fmt::Display for Put {
    fn fmt<W: fmt::Write>(&self, f: &mut fmt::Formatter<W>) -> fmt::Result {
        f.pad(match self {
            Put::One => "put one",
            Put::Two => "put two",
        })
    }
}

// What a put of one sector does to the card, where the flag is lowered.
const ONE: [Access; 6] = [
    Access::LooksAtFlag,
    Access::FirstSpare,
    Access::Slip,
    Access::RaisesFlag,
    Access::FirstPlace,
    Access::LowersFlag,
];

const TWO: [Access; 8] = [
    Access::LooksAtFlag,
    Access::FirstSpare,
    Access::SecondSpare,
    Access::Slip,
    Access::RaisesFlag,
    Access::FirstPlace,
    Access::SecondPlace,
    Access::LowersFlag,
];

impl Put {
    // The accesses of the put, in the order in which it makes them.
    pub(crate) fn accesses(self) -> &'static [Access] {
        match self {
            Put::One => &ONE,
            Put::Two => &TWO,
        }
    }

    fn make(self, store: &mut Store) -> Result<(), Refusal> {
        let first = [FIRST_BYTE; SECTOR_BYTES];
        match self {
            Put::One => store.put_one(FIRST_TARGET, &first),
            Put::Two => store.put_two(
                FIRST_TARGET,
                &first,
                SECOND_TARGET,
                &[SECOND_BYTE; SECTOR_BYTES],
            ),
        }
    }

    // The accesses of a settling that finds the flag raised: flag and slip, a spare and a place for each target, flag.
    fn settling(self) -> u32 {
        match self {
            Put::One => 5,
            Put::Two => 7,
        }
    }
}

// What a target shows: its old bytes, its new ones, or neither.
#[derive(Clone, Copy)]
pub enum Shown {
    Old,
    New,
    Neither,
}

impl fmt::Display for Shown {
    fn fmt<W: fmt::Write>(&self, f: &mut fmt::Formatter<W>) -> fmt::Result {
        f.pad(match self {
            Shown::Old => "old",
            Shown::New => "new",
            Shown::Neither => "neither old nor new",
        })
    }
}

// What the targets of a put show together.
#[derive(Clone, Copy)]
pub enum Outcome {
    AllOld,
    AllNew,
    Mixed,
}

// What each target of a put shows.
#[derive(Clone, Copy)]
pub struct Targets {
    first: Shown,
    second: Option<Shown>,
}

impl Targets {
    pub(crate) fn together(self) -> Outcome {
        match (self.first, self.second.unwrap_or(self.first)) {
            (Shown::Old, Shown::Old) => Outcome::AllOld,
            (Shown::New, Shown::New) => Outcome::AllNew,
            _ => Outcome::Mixed,
        }
    }
}

impl fmt::Display for Targets {
    fn fmt<W: fmt::Write>(&self, f: &mut fmt::Formatter<W>) -> fmt::Result {
        let first = self.first;
        match self.second {
            None => write!(f, "the target shows {first}"),
            Some(second) => write!(f, "the targets show {first} and {second}"),
        }
    }
}

fn shows(store: &mut Store, n: u32, new: u8) -> Result<Shown, Refusal> {
    let mut sector = [0u8; SECTOR_BYTES];
    store.read(n, &mut sector)?;
    Ok(if all_are(&sector, 0) {
        Shown::Old
    } else if all_are(&sector, new) {
        Shown::New
    } else {
        Shown::Neither
    })
}

// A put that is cut in access `at` of its own, counted from 0, and what a write so lost leaves.
#[derive(Clone, Copy)]
pub struct Trial {
    pub put: Put,
    pub at: u32,
    pub access: Access,
    pub loss: Loss,
}

impl fmt::Display for Trial {
    fn fmt<W: fmt::Write>(&self, f: &mut fmt::Formatter<W>) -> fmt::Result {
        let put = self.put;
        let kind = u8::from(self.loss);
        let access = self.access;
        write!(f, "{put}, kind {kind}, cut in {access}")
    }
}

impl Trial {
    // A fresh store that serves `at` accesses of the put and loses power in the next.
    pub(crate) fn cut_put(self, heap: Global) -> Result<Store, AllocError> {
        let bytes = vec![in heap; 0u8; SECTORS * SECTOR_BYTES]?;
        let mut store = Journal::new(Cut::new(FlatCard::new(bytes)));
        store.below().set_script(self.script(self.at));
        let _ = self.put.make(&mut store);
        Ok(store)
    }

    // Powers the card alone, so that nothing is settled, and cuts access `at` of the settling that the next put begins
    // with.
    pub(crate) fn cut_settling(self, store: &mut Store, at: u32) -> Result<(), Refusal> {
        store.below().power_up()?;
        store.below().set_script(self.script(at));
        let _ = store.put_one(0, &[9u8; SECTOR_BYTES]);
        Ok(())
    }

    // How many accesses the settling will make: one where it finds the flag lowered.
    pub(crate) fn settling(self, store: &mut Store) -> Result<u32, Refusal> {
        store.below().power_up()?;
        let mut flag = [0u8; SECTOR_BYTES];
        store.below().read(FLAG, &mut flag)?;
        Ok(if all_are(&flag, 0xa5) {
            self.put.settling()
        } else {
            1
        })
    }

    pub(crate) fn targets(self, store: &mut Store) -> Result<Targets, Refusal> {
        let first = shows(store, FIRST_TARGET, FIRST_BYTE)?;
        let second = match self.put {
            Put::One => None,
            Put::Two => Some(shows(store, SECOND_TARGET, SECOND_BYTE)?),
        };
        Ok(Targets { first, second })
    }

    fn script(self, left: u32) -> Script {
        Script {
            left,
            kind: self.loss.into(),
        }
    }
}
