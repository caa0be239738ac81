// The accesses that a call makes to the card below a journal, in words.
#![tactic(auto)]

ghost use Rattle.std.specs.Prelude.{Some};
ghost use Rattle.accesses.specs.Texts.{text as text_of};

use std::fmt;

#[derive(Clone, Copy, PartialEq, Eq, Debug)]
pub enum Access {
    LooksAtFlag,
    Trailer,
    Data,
    FirstSpare,
    SecondSpare,
    Slip,
    RaisesFlag,
    FirstPlace,
    SecondPlace,
    LowersFlag,
}

impl fmt::Display for Access {
    ghost output = { λ access. Some (text_of access) };

    fn fmt<W: fmt::Write>(&self, f: &mut fmt::Formatter<W>) -> fmt::Result {
        f.pad(match self {
            Access::LooksAtFlag => "the read of the flag",
            Access::Trailer => "the read of the trailer",
            Access::Data => "the read of the data sector",
            Access::FirstSpare => "the write of the first spare",
            Access::SecondSpare => "the write of the second spare",
            Access::Slip => "the write of the slip",
            Access::RaisesFlag => "the raising of the flag",
            Access::FirstPlace => "the write of the first place",
            Access::SecondPlace => "the write of the second place",
            Access::LowersFlag => "the lowering of the flag",
        })
    }
}
