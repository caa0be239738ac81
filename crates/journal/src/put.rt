// What a put writes: the new bytes of one target or of two.
ghost use Rattle.std.specs.Prelude.{◌≡◌, ◌-◌};
ghost use Rattle.journal.specs.Steps.{targets_of, spared};

use crate::layout::Layout;
use crate::slip::Targets;
use card::SECTOR_BYTES;

#[derive(Clone, Copy)]
pub struct Write<'a> {
    pub n: u32,
    pub bytes: &'a [u8; SECTOR_BYTES],
}

#[derive(Clone, Copy)]
pub struct Put<'a> {
    pub first: Write<'a>,
    pub second: Option<Write<'a>>,
}

impl<'a> Put<'a> {
    pub(crate) fn targets(self) -> Targets
        ensures { result ≡ targets_of self.entry }
    {
        Targets {
            first: self.first.n,
            second: self.second.map(|second| second.n),
        }
    }

    // The same bytes, for the spares.
    pub(crate) fn on_spares(self, layout: Layout) -> Put<'a>
        ensures { result ≡ spared layout.total self.entry }
    {
        Put {
            first: Write {
                n: layout.first_spare(),
                ..self.first
            },
            second: self.second.map(|second| Write {
                n: layout.second_spare(),
                ..second
            }),
        }
    }
}
