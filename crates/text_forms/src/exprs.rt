// Expressions, "at most eight deep": read by recursion with the depth that is left, into prefix words.
ghost use Rattle.std.specs.Prelude.{◌≡◌, ◌<◌, suc};
ghost use Rattle.gil.specs.Text.{lexeme};
ghost use Rattle.gil.specs.Reading.{expr_deep, bracketed};
ghost use Rattle.text_tokens.specs.declared.tokens.Token.TheVariants.{Reserved};
ghost use Rattle.text_tokens.specs.Mirror.Seen.{Found};
ghost use Rattle.text_forms.specs.Mirror.Goes.{Passes};
ghost use Rattle.text_forms.specs.Mirror.Stores.{put_number, after_number};
ghost use Rattle.text_forms.specs.Mirror.Wrote.{Wrote};

use crate::forms;
use crate::store::Words;
use gil::limits::{MOST_DEPTH, MOST_VARIABLES};
use machine_code::{KIND, NEXT_WORD, NOT, TRUTH, VARIABLE};
use text_names::Names;
use text_tokens::texts::Text;
use text_tokens::tokens::Token;
use text_words::keys::Key;

// "at most eight deep"
pub const DEPTH: usize = MOST_DEPTH as usize;

// a number, in one word or in two
fn number(code: &mut Words, n: u32)
    ensures same { code.new.code.ghost_name ≡ code.old.code.ghost_name }
    ensures words { code.new.code.now ≡ put_number code.old.code.now code.old.out n }
    ensures next { code.new.out ≡ after_number code.old.out n }
{
    if n < KIND {
        code.push(n);
        return;
    }
    code.push(NEXT_WORD);
    code.push(n);
}

// an expression at most `depth` deep
#[cycle(expr_operation)]
pub fn expr(
    text: &Text,
    at: usize,
    depth: usize,
    vars: &mut Names,
    code: &mut Words,
) -> Option<usize>
    ensures same { code.new.code.ghost_name ≡ code.old.code.ghost_name }
    ensures read { Passes text.now (suc at) (Wrote text.now vars.old vars.new code.old.code.now code.new.code.now code.old.out code.new.out) (expr_deep depth text.now at) result }
{
    if depth == 0 {
        return None;
    }
    let t = text.token(at);
    match t.token {
        Token::Name(place) => {
            let x = vars.intern(text, place).unwrap_or(MOST_VARIABLES);
            code.push(VARIABLE + x as u32);
            Some(t.next)
        }
        Token::Number(n) => {
            number(code, n);
            Some(t.next)
        }
        Token::Reserved(key) => reserved(text, at, key, t.next, depth, vars, code),
        Token::Mark(b'(') => operation(text, t.next, depth - 1, vars, code),
        Token::Mark(_) => None,
        _ => None,
    }
}

// an expression that begins with a reserved word, which ends at `after`
#[cycle(expr_operation)]
fn reserved(
    text: &Text,
    at: usize,
    key: Key,
    after: usize,
    depth: usize,
    vars: &mut Names,
    code: &mut Words,
) -> Option<usize>
    requires begins { Found text.now at (lexeme text.now at) (Reserved key) after }
    requires deep { 0 < depth }
    ensures same { code.new.code.ghost_name ≡ code.old.code.ghost_name }
    ensures read { Passes text.now (suc at) (Wrote text.now vars.old vars.new code.old.code.now code.new.code.now code.old.out code.new.out) (expr_deep depth text.now at) result }
{
    match key {
        Key::True => {
            code.push(TRUTH + 1);
            Some(after)
        }
        Key::False => {
            code.push(TRUTH);
            Some(after)
        }
        Key::Not => {
            code.push(NOT);
            expr(text, after, depth - 1, vars, code)
        }
        _ => None,
    }
}

// `(e op e)` past its first bracket
#[cycle(expr_operation)]
fn operation(
    text: &Text,
    at: usize,
    depth: usize,
    vars: &mut Names,
    code: &mut Words,
) -> Option<usize>
    ensures same { code.new.code.ghost_name ≡ code.old.code.ghost_name }
    ensures read { Passes text.now (suc at) (Wrote text.now vars.old vars.new code.old.code.now code.new.code.now code.old.out code.new.out) (bracketed (expr_deep depth) text.now at) result }
{
    let node = code.leave();
    let at = expr(text, at, depth, vars, code)?;
    let (operator, at) = forms::operator(text, at)?;
    code.operate(node, operator);
    let at = expr(text, at, depth, vars, code)?;
    forms::mark(text, at, b')')
}
