// The commands of a procedure, and the procedures of a text. Counts and flags run along and stop no reading.
ghost use Rattle.std.specs.Prelude.{◌≡◌, suc, ◌+◌, ◌*◌, ◌≤◌, max, ltb, ◌||◌, IfSome};
ghost use Rattle.text_forms.specs.Mirror.Goes.{Gives};
ghost use Rattle.text_commands.specs.Mirror.{one_past};
ghost use Rattle.text_procedures.specs.Mirror.Lists.{Lists};
ghost use Rattle.text_procedures.specs.Mirror.Procedures.{Declares, Tells};
ghost use Rattle.gil.specs.Reading.{commands, procedure, procedures};
ghost use Rattle.gil.specs.Numbers.{most_bytes};

use gil::limits::MOST_VARIABLES;
use machine_code::{NODES_AT, wide};
use text_commands::commands;
use text_forms::forms;
use text_forms::store::Words;
use text_names::Names;
use text_tokens::texts::Text;
use text_tokens::tokens::Token;
use text_values::values::Tables;

// the commands of a procedure: their count, the highest number jumped to, and whether the last of them ends a path
#[derive(Clone, Copy)]
pub struct Body {
    pub count: usize,
    pub jump: Option<u32>,
    pub ends: bool,
}

fn highest(a: Option<u32>, b: Option<u32>) -> Option<u32>
    ensures { one_past result ≡ max (one_past a) (one_past b) }
{
    match (a, b) {
        (Some(m), Some(n)) => Some(m.max(n)),
        (None, n) => n,
        (m, None) => m,
    }
}

fn body_of(
    text: &Text,
    at: usize,
    first: usize,
    tables: &mut Tables,
    code: &mut Words,
) -> Option<(Body, usize)>
    requires { first ≤ 300000000 }
    ensures same { code.new.code.ghost_name ≡ code.old.code.ghost_name }
    ensures read { Gives text.now (suc at) (λ b. Lists text.now tables.old.vars tables.new.vars tables.old.props tables.new.props tables.old.calls tables.new.calls code.old.code.now code.new.code.now first code.old.out code.new.out b.count (one_past b.jump) b.ends) (commands text.now at) result }
    ensures short { IfSome result (λ r. r.0.count ≤ most_bytes + 1) }
{
    // what a text has at most bounds the count
    text.len();
    let mut next = at;
    let mut count: usize = 0;
    let mut jump: Option<u32> = None;
    // to the bracket: no index is counted, a token ends the list
    loop {
        let (step, after) = commands::read_command(text, next, first + count, tables, code)?;
        next = after;
        count += 1;
        jump = highest(jump, step.jump);
        if text.past_mark(next, b'}').is_some() {
            let body = Body {
                count,
                jump,
                ends: step.ends,
            };
            return Some((body, next));
        }
    }
}

// a procedure: its count of commands, and whether it has over 16 variables, a jump past its commands, and a last command that ends no path
#[derive(Clone, Copy)]
pub struct Declared {
    pub count: usize,
    pub wide: bool,
    pub past: bool,
    pub unended: bool,
}

// the jump goes past so many commands
fn passes(jump: Option<u32>, count: usize) -> bool
    ensures { result ≡ ltb count (one_past jump) }
{
    match jump {
        Some(n) => wide(n) >= count,
        None => false,
    }
}

fn procedure_of(
    text: &Text,
    at: usize,
    number: usize,
    first: usize,
    tables: &mut Tables,
    procs: &mut Names,
    code: &mut Words,
) -> Option<(Declared, usize)>
    requires { first ≤ 300000000 }
    ensures same { code.new.code.ghost_name ≡ code.old.code.ghost_name }
    ensures read { Gives text.now (suc at) (λ d. Declares text.now tables.old.props tables.new.props tables.old.calls tables.new.calls procs.old procs.new code.old.code.now code.new.code.now number first code.old.out code.new.out d.count d.wide d.past d.unended) (procedure text.now at) result }
    ensures short { IfSome result (λ r. r.0.count ≤ most_bytes + 1) }
{
    let (name, at) = forms::name(text, at)?;
    procs.intern(text, name);
    let at = forms::mark(text, at, b'(')?;
    let (parameter, at) = forms::name(text, at)?;
    let at = forms::mark(text, at, b')')?;
    let at = forms::mark(text, at, b'{')?;
    tables.vars = Names::new(MOST_VARIABLES);
    tables.vars.intern(text, parameter);
    let (body, at) = body_of(text, at, first, tables, code)?;
    let variables = tables.vars.count as u32;
    code.procedure(number, first as u32, variables, body.count as u32);
    let at = forms::mark(text, at, b'}')?;
    let declared = Declared {
        count: body.count,
        wide: tables.vars.is_over(),
        past: passes(body.jump, body.count),
        unended: !body.ends,
    };
    Some((declared, at))
}

// all procedures: their count, that of their commands, and whether some procedure has over 16 variables, a jump past its commands, and a
// last command that ends no path
#[derive(Clone, Copy)]
pub struct Tally {
    pub procs: usize,
    pub commands: usize,
    pub wide: bool,
    pub past: bool,
    pub unended: bool,
}

// what is known before the first
const NONE_YET: Tally = Tally {
    procs: 0,
    commands: 0,
    wide: false,
    past: false,
    unended: false,
};

// what is known of the procedures so far, with one more
fn counted(t: Tally, d: Declared) -> Tally
    requires { (t.procs ≤ most_bytes) × (t.commands ≤ (most_bytes + 1) * most_bytes) × (d.count ≤ most_bytes + 1) }
    ensures { (result.procs ≡ t.procs + 1) × (result.commands ≡ t.commands + d.count) × (result.wide ≡ t.wide || d.wide) × (result.past ≡ t.past || d.past) × (result.unended ≡ t.unended || d.unended) }
{
    Tally {
        procs: t.procs + 1,
        commands: t.commands + d.count,
        wide: t.wide || d.wide,
        past: t.past || d.past,
        unended: t.unended || d.unended,
    }
}

// all procedures, and the place after them
pub fn procedures_of(
    text: &Text,
    tables: &mut Tables,
    procs: &mut Names,
    code: &mut Words,
) -> Option<(Tally, usize)>
    ensures same { code.new.code.ghost_name ≡ code.old.code.ghost_name }
    ensures read { Gives text.now 1 (λ t. Tells text.now tables.old.props tables.new.props tables.old.calls tables.new.calls procs.old procs.new code.old.code.now code.new.code.now t.procs t.commands t.wide t.past t.unended) (procedures text.now) result }
{
    text.len();
    code.out = NODES_AT;
    let mut next = 0;
    let mut tally = NONE_YET;
    // to the end of the text: no index is counted, a token ends the list
    loop {
        let (declared, after) = procedure_of(
            text,
            next,
            tally.procs,
            tally.commands,
            tables,
            procs,
            code,
        )?;
        next = after;
        tally = counted(tally, declared);
        if let Token::Ended = text.token(next).token {
            return Some((tally, next));
        }
    }
}
