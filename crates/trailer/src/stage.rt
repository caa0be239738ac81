// The stage of a trailer: `stage_number` of specs/Stages.antt gives each its number.
ghost use Rattle.std.specs.Prelude.{◌≡◌, ◌++◌, Some, codes, decimal};
ghost use Rattle.trailer.specs.Stages.{stage_number, StageRead};

use std::error::Error;
use std::fmt;

#[derive(Clone, Copy, PartialEq, Eq, Debug)]
pub enum Stage {
    Resting,
    Changing,
}

// A byte that is the number of no stage.
#[derive(Clone, Copy, PartialEq, Eq, Debug)]
pub struct UnknownStage(pub u8);

impl From<Stage> for u8 {
    ghost from_gives = { λ stage r. r ≡ stage_number stage };

    fn from(stage: Stage) -> u8 {
        match stage {
            Stage::Resting => 0,
            Stage::Changing => 1,
        }
    }
}

impl TryFrom<u8> for Stage {
    type Error = UnknownStage;

    ghost try_from_gives = { StageRead };

    fn try_from(number: u8) -> Result<Stage, UnknownStage> {
        match number {
            0 => Ok(Stage::Resting),
            1 => Ok(Stage::Changing),
            _ => Err(UnknownStage(number)),
        }
    }
}

impl fmt::Display for UnknownStage {
    ghost output = { λ u. Some (codes "no stage has the number " ++ decimal u.0) };

    fn fmt<W: fmt::Write>(&self, f: &mut fmt::Formatter<W>) -> fmt::Result {
        write!(f, "no stage has the number {}", self.0)
    }
}

impl Error for UnknownStage {}
