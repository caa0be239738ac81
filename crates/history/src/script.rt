// Calls on a volume as values, and what was answered.
ghost use Rattle.std.specs.Prelude.{◌≡◌};

use card::SECTOR_BYTES;
use refusal::Refusal;
use trailer::Stage;

#[derive(Clone, Copy)]
pub enum Call<'a> {
    PowerUp,
    Count,
    Load(&'a [u8], Option<&'a [u8]>),
    Format(u32, &'a [u8]),
    Read(u32),
    Write(u32, &'a [u8]),
    Claim,
    Begin,
    Step,
    Finish,
    HandIn,
}

// A call with its reply.
#[derive(Clone, Copy)]
pub enum Entry<'a> {
    PoweredUp(Result<(), Refusal>),
    Counted(Result<u32, Refusal>),
    Loaded(&'a [u8], Option<&'a [u8]>, Result<(), Refusal>),
    Formatted(u32, &'a [u8], Result<(), Refusal>),
    Read(u32, Result<[u8; SECTOR_BYTES], Refusal>),
    Wrote(u32, &'a [u8], Result<(), Refusal>),
    Claimed(Result<Stage, Refusal>),
    Begun(Result<(), Refusal>),
    Stepped(Result<u32, Refusal>),
    Finished(Result<(), Refusal>),
    HandedIn,
    // The permit that this call takes is not held: no call was made.
    NotMade(Call<'a>),
}

impl<'a> Entry<'a> {
    ghost use Rattle.history.specs.Scripts.{call_of};

    // The call that it tells.
    pub fn call(&self) -> Call<'a>
        ensures { result ≡ call_of self.now }
    {
        match self {
            Entry::PoweredUp(_) => Call::PowerUp,
            Entry::Counted(_) => Call::Count,
            Entry::Loaded(first, second, _) => Call::Load(first, *second),
            Entry::Formatted(reach, label, _) => Call::Format(*reach, label),
            Entry::Read(n, _) => Call::Read(*n),
            Entry::Wrote(n, bytes, _) => Call::Write(*n, bytes),
            Entry::Claimed(_) => Call::Claim,
            Entry::Begun(_) => Call::Begin,
            Entry::Stepped(_) => Call::Step,
            Entry::Finished(_) => Call::Finish,
            Entry::HandedIn => Call::HandIn,
            Entry::NotMade(call) => *call,
        }
    }
}
