// How the row of a path that stopped so begins: outcome, value or error number, steps, position and counts. specs/Mirror.antt has the words;
// crates/table_path shows that they are document 01's row.
#![tactic(auto)]

ghost use Rattle.std.specs.Prelude.{◌≡◌};
ghost use Rattle.gil.specs.Codes.{reason_number};
ghost use Rattle.table_head.specs.Mirror.{cut_of, ended_in, head_in};

use gil::outcomes::{Outcome, Reason};
use machine_code::{CODE_WORDS, PROCEDURE_WORDS, code_word};
use machine_commands::{Control, Next};
use table_rows::Head;

// A row's outcome, its value, error number or reason as the row has it, and its steps
#[derive(Clone, Copy)]
pub struct Ending {
    pub outcome: Outcome,
    pub tag: u32,
    pub word: u32,
    pub steps: u32,
}

// How a row ends whose path stopped so, at a command or where its steps were used up. The command that ends a path counts as a step; a fork,
// which is cut for branches, does not. (On and Fork have an arm each: of one arm for both the proof is told less.)
fn ends(next: Option<Next>, steps: u32) -> Ending
    ensures { result ≡ ended_in next steps }
{
    let counted = std::num::wrapping_add_u32(steps, 1);
    match next {
        None => cut(Reason::Steps, steps),
        Some(Next::Returned(tag, word)) => Ending {
            outcome: Outcome::Returned,
            tag,
            word,
            steps: counted,
        },
        Some(Next::Failed(tag, word)) => Ending {
            outcome: Outcome::Failed,
            tag,
            word,
            steps: counted,
        },
        Some(Next::Vanished) => Ending {
            outcome: Outcome::Vanished,
            tag: 0,
            word: 0,
            steps: counted,
        },
        Some(Next::Error(e)) => Ending {
            outcome: Outcome::Error,
            tag: 0,
            word: e as u32,
            steps: counted,
        },
        Some(Next::On(_)) => cut(Reason::Branches, steps),
        Some(Next::Fork(..)) => cut(Reason::Branches, steps),
    }
}

fn cut(why: Reason, steps: u32) -> Ending
    ensures { result ≡ cut_of (reason_number why) steps }
{
    Ending {
        outcome: Outcome::Cut,
        tag: 0,
        word: why as u32,
        steps,
    }
}

// The head of the row of a path that stopped so
pub fn head(
    code: &[u32; CODE_WORDS],
    next: Option<Next>,
    at: Control,
    steps: u32,
    conditions: u32,
) -> Head
    ensures { result ≡ head_in code.now (ended_in next steps) at conditions }
{
    let e = ends(next, steps);
    let variables = code_word(code, PROCEDURE_WORDS * (at.procedure as usize) + 3);
    Head {
        outcome: e.outcome as u32,
        tag: e.tag,
        word: e.word,
        steps: e.steps,
        procedure: at.procedure,
        command: at.command,
        inputs: at.inputs.0,
        conditions,
        variables,
    }
}
