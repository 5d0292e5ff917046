// The small forms: a given mark, `:=`, a name, a property, a number, an operator. They are taken in where they are called: an `Option` of a pair
// would else go through memory, and a text's check take 3 % longer (docs/DESIGN-PASS.md).
ghost use Rattle.std.specs.Prelude.{◌≡◌, suc, true};
ghost use Rattle.gil.specs.Reading.{the_mark, the_becomes, the_name, the_property, the_number, the_op, op_mark, op_key};
ghost use Rattle.text_words.specs.Mirror.Keys.{key_is};
ghost use Rattle.text_tokens.specs.Mirror.Marks.{lone};
ghost use Rattle.text_tokens.specs.Mirror.Seen.{name_at};
ghost use Rattle.text_forms.specs.Mirror.Goes.{Passes, Gives, anything};
ghost use Rattle.text_forms.specs.Mirror.Seeing.{ReadsOp, OperatorOf};
ghost use Rattle.machine_code.specs.Kinds.{op_of};

use machine_code::kinds::Operator;
use text_tokens::texts::Text;
use text_tokens::tokens::{Place, Token};
use text_words::keys::Key;

// the place after a mark that no other token starts with
#[inline(always)]
pub fn mark(text: &Text, at: usize, b: u8) -> Option<usize>
    requires { lone b ≡ true }
    ensures { Passes text.now (suc at) anything (the_mark b text.now at) result }
{
    text.past_mark(at, b)
}

#[inline(always)]
pub fn becomes(text: &Text, at: usize) -> Option<usize>
    ensures { Passes text.now (suc at) anything (the_becomes text.now at) result }
{
    let t = text.token(at);
    match t.token {
        Token::Becomes => Some(t.next),
        _ => None,
    }
}

#[inline(always)]
pub fn name(text: &Text, at: usize) -> Option<(Place, usize)>
    ensures { Gives text.now (suc at) (λ p w. name_at text.now p ≡ w) (the_name text.now at) result }
{
    let t = text.token(at);
    match t.token {
        Token::Name(place) => Some((place, t.next)),
        _ => None,
    }
}

#[inline(always)]
pub fn property(text: &Text, at: usize) -> Option<(Place, usize)>
    ensures { Gives text.now (suc at) (λ p w. name_at text.now p ≡ w) (the_property text.now at) result }
{
    let t = text.token(at);
    match t.token {
        Token::Property(place) => Some((place, t.next)),
        _ => None,
    }
}

#[inline(always)]
pub fn number(text: &Text, at: usize) -> Option<(u32, usize)>
    ensures { Gives text.now (suc at) (λ m n. m ≡ n) (the_number text.now at) result }
{
    let t = text.token(at);
    match t.token {
        Token::Number(n) => Some((n, t.next)),
        _ => None,
    }
}

// the operator that a mark is, and that a reserved word is
#[inline(always)]
fn mark_operator(b: u8) -> Option<Operator>
    ensures { ReadsOp (op_mark b) result }
{
    match b {
        b'+' => Some(Operator::Plus),
        b'-' => Some(Operator::Minus),
        b'=' => Some(Operator::Equal),
        b'<' => Some(Operator::Less),
        _ => None,
    }
}

#[inline(always)]
fn key_operator(key: Key) -> Option<Operator>
    ensures { ReadsOp (op_key (key_is key)) result }
{
    match key {
        Key::And => Some(Operator::And),
        Key::Or => Some(Operator::Or),
        _ => None,
    }
}

// the operator that a token is
#[inline(always)]
fn operator_of(token: Token) -> Option<Operator>
    ensures { OperatorOf token result }
{
    match token {
        Token::Mark(b) => mark_operator(b),
        Token::Reserved(key) => key_operator(key),
        _ => None,
    }
}

#[inline(always)]
pub fn operator(text: &Text, at: usize) -> Option<(Operator, usize)>
    ensures { Gives text.now (suc at) (λ o op. op_of o ≡ op) (the_op text.now at) result }
{
    let t = text.token(at);
    let operator = operator_of(t.token)?;
    Some((operator, t.next))
}
