// Linking, after the last procedure was read: in the word of each call, the callee's number in the table of callees becomes its place among
// the procedures (specs/Mirror/Linked.antt).
ghost use Rattle.std.specs.Prelude.{◌≡◌, ◌≤◌, ◌<◌, min, length, get_or};
ghost use Rattle.text_names.specs.Mirror.Tables.{known, most_names};
ghost use Rattle.text_programs.specs.Mirror.Linked.{Links, callee_in, link_command, nowhere};
ghost use Rattle.gil.specs.Numbers.{most_commands};

use machine_code::kinds::CommandKind;
use machine_code::{CODE_WORDS, COMMAND_WORDS, COMMANDS_AT};
use text_names::{MOST_NAMES, Names};
use text_tokens::texts;
use text_tokens::tokens::{NOWHERE, Place};

// as a word compares with it
const TABLE_END: u32 = MOST_NAMES as u32;

const CALL: u32 = CommandKind::Call as u32;

// where name k of a table stands in the text
fn place_of(calls: &Names, k: u32) -> Place
    ensures { length calls.now.places ≡ most_names → result ≡ get_or calls.now.places k nowhere }
{
    if k < TABLE_END {
        return calls.places[k as usize];
    }
    NOWHERE
}

// the place of callee k among the procedures, or how many of them the table has
fn callee(text: &[u8], k: u32, calls: &Names, procs: &Names) -> u32
    ensures { length calls.now.places ≡ most_names → length (known text.now procs.now) ≡ min procs.now.count procs.now.most → result ≡ callee_in text.now calls.now procs.now k }
{
    let name = texts::name(text, place_of(calls, k));
    procs
        .find_in(text, name)
        .unwrap_or(procs.count.min(procs.most)) as u32
}

fn link_command(text: &[u8], code: &mut [u32; CODE_WORDS], i: usize, calls: &Names, procs: &Names)
    requires { i < most_commands }
    ensures { length calls.now.places ≡ most_names → length (known text.now procs.now) ≡ min procs.now.count procs.now.most → code.new ≡ link_command (callee_in text.now calls.now procs.now) code.old i }
{
    let at = COMMANDS_AT + COMMAND_WORDS * i;
    if code[at] == CALL {
        let f = callee(text, code[at + 3], calls, procs);
        code[at + 3] = f;
    }
}

// Links the commands of all procedures, of any bytes, also of more than a text may have; `calls` and `procs` are the tables of callees and of
// procedures, each of them also where it is over.
pub fn link(
    text: &[u8],
    code: &mut [u32; CODE_WORDS],
    commands: usize,
    calls: &Names,
    procs: &Names,
)
    requires { commands ≤ most_commands }
    ensures { length calls.now.places ≡ most_names → length (known text.now procs.now) ≡ min procs.now.count procs.now.most → Links text.now calls.now procs.now commands code.old code.new }
{
    for i in 0..commands {
        link_command(text, code, i, calls, procs);
    }
}
