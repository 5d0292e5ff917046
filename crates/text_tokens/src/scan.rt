// Where white space and runs of characters end.
ghost use Rattle.std.specs.Prelude.{◌≡◌, ℕ, Bool, ◌+◌, ◌≤◌, drop, length};
ghost use Rattle.gil.specs.Text.{span};
ghost use Rattle.text_tokens.specs.Mirror.Scan.{Tests};

// the first place from `at` on whose byte is not of the class
pub fn past<F: Fn(u8) -> bool>(text: &[u8], at: usize, class: F) -> usize
    requires { F.IsAlwaysCallable class }
    ensures ends { (p : ℕ → Bool) → Tests (F.post class) p → result ≡ at + span p (drop at text.now) }
    ensures within { (at ≤ result) × (at ≤ length text.now → result ≤ length text.now) }
{
    for i in at..text.len() {
        if !class(text[i]) {
            return i;
        }
    }
    at.max(text.len())
}
