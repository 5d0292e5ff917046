// check: whether a text is accepted, or its refusal, 3 to 8. It is given nothing that 1 and 2 could refuse. Assumes nothing.
#![tactic(auto)]

ghost use Rattle.gil.specs.Promises.{Promise, check};
ghost use Rattle.gil.specs.Refusals.{answer_of};

use call_given as given;
use gil::refusals::Refusal;
use machine_code::CODE_WORDS;

pub fn check(text: &[u8]) -> Result<(), Refusal>
    ensures { Promise (check text.now) (answer_of result) }
{
    let mut code = [0u32; CODE_WORDS];
    given::begin(false, false, text, &mut code)
}
