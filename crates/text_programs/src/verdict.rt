// The refusal of a text: what was counted and flagged while it was read, tested in the order of document 01; and the whole of reading one,
// which promises the program's words (specs/Mirror/Reads.antt).
ghost use Rattle.std.specs.Prelude.{◌≡◌, List, [], ℕ, ◌||◌, not, ◌≤◌, length, replicate, ltb};
ghost use Rattle.gil.specs.Tree.{Proc, Name};
ghost use Rattle.gil.specs.Reading.{read, procedures};
ghost use Rattle.gil.specs.Names.{any, has, with_names, tested};
ghost use Rattle.gil.specs.Calls.{text_answer};
ghost use Rattle.gil.specs.Refusals.{answer_of};
ghost use Rattle.text_tokens.specs.Mirror.Seen.{name_at};
ghost use Rattle.text_names.specs.Mirror.Tables.{Kept, known, most_names};
ghost use Rattle.text_forms.specs.Mirror.Goes.{Gives};
ghost use Rattle.text_procedures.specs.Mirror.Procedures.{Tells};
ghost use Rattle.text_programs.specs.Mirror.Verdict.{Told, any_missing, wrong_with};
ghost use Rattle.text_programs.specs.Mirror.Reads.{Reads, Finishes};
ghost use Rattle.gil.specs.Numbers.{most_commands, most_procedures, most_properties};
ghost use Rattle.machine_code.specs.Code.{code_words};

use crate::link;
use gil::limits::{MOST_COMMANDS, MOST_PROCEDURES, MOST_PROPERTIES, MOST_VARIABLES};
use gil::refusals::Refusal;
use machine_code::{CODE_WORDS, NODES_AT};
use text_forms::store::Words;
use text_names::Names;
use text_procedures::lists;
use text_procedures::lists::Tally;
use text_tokens::texts::Text;
use text_tokens::tokens::Place;
use text_values::values::Tables;

// 5: "over 16 procedures, 512 commands in all, 16 variables in a procedure (parameter included), or 32 distinct properties"
fn over_limits(t: Tally, props: &Names) -> bool
    ensures { result ≡ ltb most_procedures t.procs || ltb most_commands t.commands || t.wide || ltb props.now.most props.now.count }
{
    t.procs > MOST_PROCEDURES || t.commands > MOST_COMMANDS || t.wide || props.is_over()
}

// the name at a place is none of the procedures'
fn is_missing(text: &Text, place: Place, procs: &Names) -> bool
    ensures { result ≡ not (has (name_at text.now place) (known text.now procs.now)) }
{
    procs.find(text, text.name(place)).is_none()
}

// some call is of none of the procedures
fn some_missing(text: &Text, calls: &Names, procs: &Names) -> bool
    ensures { result ≡ any_missing text.now calls.now procs.now }
{
    let count = calls.count.min(calls.most);
    calls.places[..count]
        .iter()
        .any(|place| is_missing(text, *place, procs))
}

// 6: "two procedures of one name, a call of a procedure that is not there, or no `main`"
fn wrong_names(text: &Text, count: usize, calls: &Names, procs: &Names) -> bool
    ensures { (ns fs : List Name) → Kept text.now most_procedures procs.now (with_names [] ns) → Kept text.now most_procedures calls.now (with_names [] fs) → count ≡ length ns → count ≤ most_procedures → result ≡ wrong_with ns fs }
{
    if procs.count != count {
        return true;
    }
    if calls.is_over() {
        return true;
    }
    if some_missing(text, calls, procs) {
        return true;
    }
    procs.find(text, b"main").is_none()
}

// the refusal of a text that was read, if it has one
fn verdict(text: &Text, t: Tally, tables: &Tables, procs: &Names) -> Result<(), Refusal>
    ensures { (ps : List (Proc Name)) (n : ℕ) → Told text.now tables.now.props tables.now.calls procs.now t.procs t.commands t.wide t.past t.unended ps → answer_of result ≡ text_answer (tested (read ps n)) }
{
    if over_limits(t, &tables.props) {
        return Err(Refusal::Limits);
    }
    if wrong_names(text, t.procs, &tables.calls, procs) {
        return Err(Refusal::Names);
    }
    if t.past {
        return Err(Refusal::Jump);
    }
    if t.unended {
        return Err(Refusal::End);
    }
    Ok(())
}

// The end of reading: callees by their places among the procedures, and words 0 and 1, how many procedures there are and which is `main`.
// The limits are those of an accepted text.
fn finish(text: &Text, code: &mut [u32; CODE_WORDS], commands: usize, calls: &Names, procs: &Names)
    ensures { length calls.now.places ≡ most_names → length (known text.now procs.now) ≡ procs.now.count → commands ≤ most_commands → Finishes text.now calls.now procs.now commands code.old code.new }
{
    if commands > MOST_COMMANDS {
        return;
    }
    link::link(text.bytes(), code, commands, calls, procs);
    code[0] = procs.count as u32;
    code[1] = procs.find(text, b"main").unwrap_or(procs.count) as u32;
}

// reads all procedures into the words, the nodes from their place on
fn procedures(
    text: &Text,
    tables: &mut Tables,
    names: &mut Names,
    code: &mut [u32; CODE_WORDS],
) -> Option<(Tally, usize)>
    ensures { Gives text.now 1 (λ t. Tells text.now tables.old.props tables.new.props tables.old.calls tables.new.calls names.old names.new code.old code.new t.procs t.commands t.wide t.past t.unended) (procedures text.now) result }
{
    let mut words = Words {
        code,
        out: NODES_AT,
    };
    lists::procedures_of(text, tables, names, &mut words)
}

// Reads a text into the words of its program, and its procedures' names into a table; the words are lent zeroed, and the table with no names. A
// refusal is the text's.
pub fn read_program(
    text: &[u8],
    code: &mut [u32; CODE_WORDS],
    names: &mut Names,
) -> Result<(), Refusal>
    ensures { code.old ≡ replicate code_words 0 → Kept text.now most_procedures names.old [] → Reads text.now code.new names.new (answer_of result) }
{
    let Some(text) = Text::new(text) else {
        return Err(Refusal::Length);
    };
    let mut tables = Tables {
        vars: Names::new(MOST_VARIABLES),
        props: Names::new(MOST_PROPERTIES),
        calls: Names::new(MOST_PROCEDURES),
    };
    let Some((t, _)) = procedures(&text, &mut tables, names, code) else {
        return Err(Refusal::Form);
    };
    verdict(&text, t, &tables, names)?;
    finish(&text, code, t.commands, &tables.calls, names);
    Ok(())
}
