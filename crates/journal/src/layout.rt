// Where a journal's own sectors lie: the last four of the card below.
ghost use Rattle.std.specs.Prelude.{◌≡◌, ◌-◌, ◌<◌, ◌≤◌, MatchOption};

#[derive(Clone, Copy)]
pub struct Layout {
    // how many sectors the card below has
    pub total: u32,
    ghost room: { 5 ≤ total },
}

impl Layout {
    // Fewer than five sectors hold no journal.
    pub(crate) fn of(total: u32) -> Option<Layout>
        ensures { MatchOption result (total < 5) (λ layout. (layout.total ≡ total) × (5 ≤ total)) }
    {
        if total < 5 {
            return None;
        }
        Some(Layout { total })
    }

    // How many sectors the journal shows.
    pub(crate) fn places(self) -> u32
        ensures { result ≡ self.total - 4 }
    {
        self.total - 4
    }

    // The new bytes of the first target.
    pub(crate) fn first_spare(self) -> u32
        ensures { result ≡ self.total - 4 }
    {
        self.total - 4
    }

    // The new bytes of the second target.
    pub(crate) fn second_spare(self) -> u32
        ensures { result ≡ self.total - 3 }
    {
        self.total - 3
    }

    pub(crate) fn slip(self) -> u32
        ensures { result ≡ self.total - 2 }
    {
        self.total - 2
    }

    pub(crate) fn flag(self) -> u32
        ensures { result ≡ self.total - 1 }
    {
        self.total - 1
    }
}
