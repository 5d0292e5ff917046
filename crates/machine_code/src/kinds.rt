// A command's kind and an operator's node, as they stand in a program's words: each number is the discriminant (specs/Code.antt).
ghost use Rattle.machine_code.specs.Kinds.{IsCommandOf, IsOperatorOf};

use gil::Unknown;

// By document 01's table of commands
#[derive(Clone, Copy, Debug, PartialEq, Eq)]
pub enum CommandKind {
    Assign = 1,
    Jump,
    Call,
    Lookup,
    Mutate,
    Dispose,
    USym,
    ISym,
    Return,
    Fail,
    Vanish,
}

impl TryFrom<u32> for CommandKind {
    type Error = Unknown;

    ghost try_from_gives = { IsCommandOf };

    fn try_from(word: u32) -> Result<Self, Unknown> {
        match word {
            1 => Ok(CommandKind::Assign),
            2 => Ok(CommandKind::Jump),
            3 => Ok(CommandKind::Call),
            4 => Ok(CommandKind::Lookup),
            5 => Ok(CommandKind::Mutate),
            6 => Ok(CommandKind::Dispose),
            7 => Ok(CommandKind::USym),
            8 => Ok(CommandKind::ISym),
            9 => Ok(CommandKind::Return),
            10 => Ok(CommandKind::Fail),
            11 => Ok(CommandKind::Vanish),
            _ => Err(Unknown(word)),
        }
    }
}

// The operators of two operands, by the kinds of their nodes
#[derive(Clone, Copy, Debug, PartialEq, Eq)]
pub enum Operator {
    Plus = 5,
    Minus,
    Equal,
    Less,
    And,
    Or,
}

impl TryFrom<u32> for Operator {
    type Error = Unknown;

    ghost try_from_gives = { IsOperatorOf };

    fn try_from(kind: u32) -> Result<Self, Unknown> {
        match kind {
            5 => Ok(Operator::Plus),
            6 => Ok(Operator::Minus),
            7 => Ok(Operator::Equal),
            8 => Ok(Operator::Less),
            9 => Ok(Operator::And),
            10 => Ok(Operator::Or),
            _ => Err(Unknown(kind)),
        }
    }
}
