// What a value in lent memory is, by its tag's number (docs/LAYOUT.md), the discriminant.
ghost use Rattle.gil.specs.Codes.{IsTagOf};

use crate::Unknown;

#[derive(Clone, Copy, Debug, PartialEq, Eq)]
pub enum Tag {
    Number = 1,
    Boolean,
    Location,
    NumberTerm,
    BooleanTerm,
}

impl TryFrom<u32> for Tag {
    type Error = Unknown;

    ghost try_from_gives = { IsTagOf };

    fn try_from(code: u32) -> Result<Self, Unknown> {
        match code {
            1 => Ok(Tag::Number),
            2 => Ok(Tag::Boolean),
            3 => Ok(Tag::Location),
            4 => Ok(Tag::NumberTerm),
            5 => Ok(Tag::BooleanTerm),
            _ => Err(Unknown(code)),
        }
    }
}
