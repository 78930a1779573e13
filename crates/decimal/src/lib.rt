// Numbers in decimal, put behind a text.
#![tactic(auto)]

ghost use Rattle.std.specs.Prelude.{◌≡◌, ◌+◌, ◌≤◌, [], length};
ghost use Rattle.std.proofs.lemmas.List.Edits.{sets};
ghost use Rattle.laws.specs.Examples.{AllHold};
ghost use Rattle.decimal.specs.Decimal.{decimal_before};
ghost use Rattle.decimal.specs.Examples.{examples};

// Puts bytes behind a text that ends at `end`, and says where it ends then.
pub fn append_bytes(text: &mut [u8], end: usize, bytes: &[u8]) -> usize
    requires { end + length bytes.now ≤ length text.old }
    ensures result_value { result ≡ end + length bytes.now }
    ensures text_after { text.new ≡ sets text.old end bytes.now }
{
    let after = end + bytes.len();
    text[end..after].copy_from_slice(bytes);
    after
}

// Puts a number's digits behind a text that ends at `end`, and says where it ends then. They are
// not written by `write!`, which says what it wrote only if it succeeds, and nowhere that it does.
pub fn append_decimal(text: &mut [u8], end: usize, n: u64) -> usize
    requires { end + 20 ≤ length text.old }
    ensures upper_bound { result ≤ end + 20 }
    ensures result_value { result ≡ end + length (decimal_before n []) }
    ensures text_after { text.new ≡ sets text.old end (decimal_before n []) }
{
    append_bytes(text, end, itoa::Buffer::new().format(n).as_bytes())
}

// Worked examples of numbers in decimal, computed from the definitions. It does nothing when it is
// called.
pub fn examples_hold()
    ensures { AllHold examples }
{}
