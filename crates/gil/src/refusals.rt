// "Numbered refusals, in the order tested": why a call refuses. Its number is the discriminant.
ghost use Rattle.std.specs.Prelude.{◌≡◌};
ghost use Rattle.gil.specs.Refusals.{answer_of};

#[derive(Clone, Copy, Debug, PartialEq, Eq)]
pub enum Refusal {
    Budgets = 1,
    Lists,
    Length,
    Form,
    Limits,
    Names,
    Jump,
    End,
    Rows,
    Terms,
}

// What a call answers to C: 0, or the number of its refusal
pub fn answer(r: Result<(), Refusal>) -> u32
    ensures { result ≡ answer_of r }
{
    match r {
        Ok(()) => 0,
        Err(refusal) => refusal as u32,
    }
}
