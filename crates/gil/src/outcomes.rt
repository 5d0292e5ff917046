// How a row stands: its outcome, and why a path was cut, each by its number in a row's words (docs/LAYOUT.md), the discriminant.
ghost use Rattle.gil.specs.Codes.{IsOutcomeOf, IsReasonOf};

use crate::Unknown;

#[derive(Clone, Copy, Debug, PartialEq, Eq)]
pub enum Outcome {
    Returned = 1,
    Failed,
    Vanished,
    Error,
    Cut,
}

impl TryFrom<u32> for Outcome {
    type Error = Unknown;

    ghost try_from_gives = { IsOutcomeOf };

    fn try_from(code: u32) -> Result<Self, Unknown> {
        match code {
            1 => Ok(Outcome::Returned),
            2 => Ok(Outcome::Failed),
            3 => Ok(Outcome::Vanished),
            4 => Ok(Outcome::Error),
            5 => Ok(Outcome::Cut),
            _ => Err(Unknown(code)),
        }
    }
}

#[derive(Clone, Copy, Debug, PartialEq, Eq)]
pub enum Reason {
    Steps = 1,
    Branches,
}

impl TryFrom<u32> for Reason {
    type Error = Unknown;

    ghost try_from_gives = { IsReasonOf };

    fn try_from(code: u32) -> Result<Self, Unknown> {
        match code {
            1 => Ok(Reason::Steps),
            2 => Ok(Reason::Branches),
            _ => Err(Unknown(code)),
        }
    }
}
