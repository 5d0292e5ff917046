// plain run: the answer's first 1,024 bytes are those of the run on the sixteen inputs; or 1 to 8, and the answer is untouched. Assumes
// nothing.
#![tactic(auto)]

ghost use Rattle.std.specs.Prelude.{◌≡◌, ◌||◌, ltb};
ghost use Rattle.gil.specs.Numbers.{answer_length};
ghost use Rattle.gil.specs.Calls.{wrong_inputs};
ghost use Rattle.gil.specs.Promises.{Promise, plain_run};
ghost use Rattle.gil.specs.Refusals.{answer_of};

use call_given as given;
use gil::layout::ANSWER_BYTES;
use gil::refusals::Refusal;
use machine_code::CODE_WORDS;
use table_plain_run as run;

// 2: "a lent buffer is shorter than the call needs, or the input list is not sixteen long", by the answer's length
fn wrong_lists(inputs: &[u8], answer: usize) -> bool
    ensures { result ≡ wrong_inputs inputs.now || ltb answer answer_length }
{
    given::wrong_inputs(inputs) || answer < ANSWER_BYTES
}

pub fn plain_run(text: &[u8], inputs: &[u8], steps: u32, answer: &mut [u8]) -> Result<(), Refusal>
    ensures { Promise (plain_run text.now inputs.now steps answer.old) (record { returns = answer_of result; answer = answer.new }) }
{
    let budget = given::wrong_budget(steps);
    let lists = wrong_lists(inputs, answer.len());
    let mut code = [0u32; CODE_WORDS];
    given::begin(budget, lists, text, &mut code)?;
    let words = given::input_words(inputs);
    run::run(&code, &words, steps, answer);
    Ok(())
}
