// What a term in the pool is, by its kind's number (docs/LAYOUT.md), the discriminant.
ghost use Rattle.gil.specs.Codes.{IsKindOf};

use crate::Unknown;

#[derive(Clone, Copy, Debug, PartialEq, Eq)]
pub enum TermKind {
    Input = 1,
    Not,
    Plus,
    Minus,
    Equal,
    Less,
    And,
    Or,
}

impl TryFrom<u32> for TermKind {
    type Error = Unknown;

    ghost try_from_gives = { IsKindOf };

    fn try_from(code: u32) -> Result<Self, Unknown> {
        match code {
            1 => Ok(TermKind::Input),
            2 => Ok(TermKind::Not),
            3 => Ok(TermKind::Plus),
            4 => Ok(TermKind::Minus),
            5 => Ok(TermKind::Equal),
            6 => Ok(TermKind::Less),
            7 => Ok(TermKind::And),
            8 => Ok(TermKind::Or),
            _ => Err(Unknown(code)),
        }
    }
}
