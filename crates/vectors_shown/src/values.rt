// Values, truths and terms, by their words.
use gil::kinds::TermKind;
use gil::tags::Tag;
use lent_words::word_at;
use std::fmt;

#[derive(Clone, Copy)]
pub struct Truth(pub u32);

impl fmt::Display for Truth {
    fn fmt<W: fmt::Write>(&self, f: &mut fmt::Formatter<W>) -> fmt::Result {
        match self.0 {
            0 => write!(f, "false"),
            1 => write!(f, "true"),
            w => write!(f, "truth:{w}"),
        }
    }
}

// A number, a boolean, a location `$k`, a number term `nT` or a boolean term `bT` by its place in the pool, or `-` for nothing.
#[derive(Clone, Copy)]
pub struct Value {
    pub tag: u32,
    pub word: u32,
}

impl fmt::Display for Value {
    fn fmt<W: fmt::Write>(&self, f: &mut fmt::Formatter<W>) -> fmt::Result {
        let w = self.word;
        match Tag::try_from(self.tag) {
            Ok(Tag::Number) => write!(f, "{w}"),
            Ok(Tag::Boolean) => write!(f, "{}", Truth(w)),
            Ok(Tag::Location) => write!(f, "${w}"),
            Ok(Tag::NumberTerm) => write!(f, "n{w}"),
            Ok(Tag::BooleanTerm) => write!(f, "b{w}"),
            Err(tag) => unknown(f, tag.0, w),
        }
    }
}

fn unknown<W: fmt::Write>(f: &mut fmt::Formatter<W>, tag: u32, w: u32) -> fmt::Result {
    if tag != 0 {
        write!(f, "tag:{tag}")
    } else if w != 0 {
        write!(f, "nothing:{w}")
    } else {
        write!(f, "-")
    }
}

// What a term is, by a sign: an input, `not`, `and` and `or` by #, !, & and |.
fn sign(kind: u32) -> char {
    match TermKind::try_from(kind) {
        Ok(TermKind::Input) => '#',
        Ok(TermKind::Not) => '!',
        Ok(TermKind::Plus) => '+',
        Ok(TermKind::Minus) => '-',
        Ok(TermKind::Equal) => '=',
        Ok(TermKind::Less) => '<',
        Ok(TermKind::And) => '&',
        Ok(TermKind::Or) => '|',
        Err(_) => '?',
    }
}

// A term by its bytes: what it is, and its operands as values.
#[derive(Clone, Copy)]
pub struct Term<'a>(pub &'a [u8]);

impl fmt::Display for Term<'_> {
    fn fmt<W: fmt::Write>(&self, f: &mut fmt::Formatter<W>) -> fmt::Result {
        let kind = sign(word_at(self.0, 0));
        let left = Value {
            tag: word_at(self.0, 4),
            word: word_at(self.0, 8),
        };
        let right = Value {
            tag: word_at(self.0, 12),
            word: word_at(self.0, 16),
        };
        write!(f, "{kind} {left} {right}")
    }
}
