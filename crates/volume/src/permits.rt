// Permits: while one is out, nobody else may load keys, format or claim. They are moved and never copied, nobody else can
// make one, and a program that lets one go is refused: its drop asks that it was spent, which only a call of the volume
// can show.
ghost use Rattle.std.specs.Prelude.{◌≡◌, true, if◌then◌else◌};
ghost use Rattle.trailer.specs.declared.stage.Stage.TheVariants.{Resting as atRest, Changing as inChange};
ghost use Rattle.volume.specs.Permits.{stage_held};
ghost use Rattle.volume.specs.Answers.{verdict};

use refusal::Refusal;
use trailer::Stage;

// A permit for a key that rests, or where CHANGING for one that changes.
pub struct Token<const CHANGING: bool> {
    // whether a call has taken it: then it is over, and may go
    spent: bool,
}

// Held while the key rests; a begin takes it.
pub type Resting = Token<false>;

// Held while the key changes; a step is shown it, and a finish takes it.
pub type Changing = Token<true>;

impl<const CHANGING: bool> Drop for Token<CHANGING> {
    fn drop(self)
        requires { self.spent ≡ true }
    {
        let Token { spent: _ } = self;
    }
}

impl<const CHANGING: bool> Token<CHANGING> {
    pub(crate) fn issue() -> Self {
        Token { spent: false }
    }

    pub(crate) fn spend(mut self) {
        self.spent = true;
    }

    // The stage of the key that it is for.
    fn stage(&self) -> Stage
        ensures { result ≡ (if CHANGING then inChange else atRest) }
    {
        if CHANGING {
            Stage::Changing
        } else {
            Stage::Resting
        }
    }

    // The next permit for this one, or where the call was refused this one again.
    pub(crate) fn exchanged<const NEXT: bool>(
        self,
        reply: Result<(), Refusal>,
    ) -> Result<Token<NEXT>, (Refusal, Self)>
        ensures { verdict result ≡ reply }
    {
        match reply {
            Ok(()) => {
                self.spend();
                Ok(Token::issue())
            }
            Err(e) => Err((e, self)),
        }
    }
}

// What a claim hands out and a hand-in takes back.
#[derive(Drop)]
pub enum Permit {
    Resting(Resting),
    Changing(Changing),
}

impl Permit {
    // The permit of a key at this stage.
    pub(crate) fn issue(stage: Stage) -> Permit
        ensures { stage_held result ≡ stage }
    {
        match stage {
            Stage::Resting => Permit::Resting(Resting::issue()),
            Stage::Changing => Permit::Changing(Changing::issue()),
        }
    }

    // The stage of the key that it was claimed for.
    pub fn stage(&self) -> Stage
        ensures { result ≡ stage_held self.now }
    {
        match self {
            Permit::Resting(p) => p.stage(),
            Permit::Changing(p) => p.stage(),
        }
    }

    pub(crate) fn spend(self) {
        match self {
            Permit::Resting(p) => p.spend(),
            Permit::Changing(p) => p.spend(),
        }
    }
}
