// The calls of a change of key, and the accesses that each of them makes to the card.
use accesses::Access;
use history::Call;
use std::fmt;

// How many data sectors the volume has.
pub(crate) const REACH: u32 = 3;

// The calls of a change, in order. Step n answers n.
pub(crate) const CHANGE: [Part; 6] = [
    Part::Claim,
    Part::Begin,
    Part::Step(1),
    Part::Step(2),
    Part::Step(3),
    Part::Finish,
];

#[derive(Clone, Copy, PartialEq, Eq)]
pub enum Part {
    Claim,
    Begin,
    Step(u32),
    Finish,
}

impl fmt::Display for Part {
    fn fmt<W: fmt::Write>(&self, f: &mut fmt::Formatter<W>) -> fmt::Result {
        match self {
            Part::Claim => f.pad("claim"),
            Part::Begin => f.pad("begin"),
            Part::Step(n) => write!(f, "step {n}"),
            Part::Finish => f.pad("finish"),
        }
    }
}

// Each read through the journal looks at the flag first. A put begins with a look at the flag too.
const CLAIM: [Access; 2] = [Access::LooksAtFlag, Access::Trailer];

// The trailer, and a put of one sector.
const BEGIN_OR_FINISH: [Access; 8] = [
    Access::LooksAtFlag,
    Access::Trailer,
    Access::LooksAtFlag,
    Access::FirstSpare,
    Access::Slip,
    Access::RaisesFlag,
    Access::FirstPlace,
    Access::LowersFlag,
];

// The trailer, the data sector, and a put of both.
const STEP: [Access; 12] = [
    Access::LooksAtFlag,
    Access::Trailer,
    Access::LooksAtFlag,
    Access::Data,
    Access::LooksAtFlag,
    Access::FirstSpare,
    Access::SecondSpare,
    Access::Slip,
    Access::RaisesFlag,
    Access::FirstPlace,
    Access::SecondPlace,
    Access::LowersFlag,
];

impl Part {
    pub(crate) fn call(self) -> Call<'static> {
        match self {
            Part::Claim => Call::Claim,
            Part::Begin => Call::Begin,
            Part::Step(_) => Call::Step,
            Part::Finish => Call::Finish,
        }
    }

    // What the call does to the card, where the flag is lowered.
    pub(crate) fn accesses(self) -> &'static [Access] {
        match self {
            Part::Claim => &CLAIM,
            Part::Begin => &BEGIN_OR_FINISH,
            Part::Step(_) => &STEP,
            Part::Finish => &BEGIN_OR_FINISH,
        }
    }
}
