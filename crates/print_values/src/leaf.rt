// A value without operands, and its text.
ghost use Rattle.std.specs.Prelude.{◌≡◌, ◌≤◌, length};
ghost use Rattle.gil.specs.Printed.{truth_text};
ghost use Rattle.print_values.specs.Leaves.{leaf_form};

use machine_values::{Input, Location};
use print_writing::{Page, Text, size_of};

#[derive(Clone, Copy)]
pub enum Leaf {
    Number(u32),
    Truth(bool),
    Location(Location),
    Input(Input),
}

fn truth_text(b: bool) -> &'static [u8]
    ensures { result.now ≡ truth_text b }
{
    if b { b"true" } else { b"false" }
}

impl Text for Leaf {
    ghost text = { leaf_form };

    // "Terms print with `#k`, `$k`": an input, and a location
    fn put_on(&self, page: &mut Page) {
        match *self {
            Leaf::Number(n) => n.put_on(page),
            Leaf::Truth(b) => page.put_all(truth_text(b)),
            Leaf::Location(l) => {
                page.put(b'$');
                l.0.put_on(page);
            }
            Leaf::Input(i) => {
                page.put(b'#');
                i.0.put_on(page);
            }
        }
    }
}

impl Leaf {
    pub fn size(&self) -> u32
        ensures length { result ≡ length (leaf_form self.now) }
        ensures few { result ≤ 11 }
    {
        size_of(self) as u32
    }
}
