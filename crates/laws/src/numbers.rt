// The numbers below a bound, as cards and pages are: whether any passes a test, the lowest that does,
// and how many do. A caller passes the test as a closure, and knows of the answer what the definitions
// `any_below`, `lowest_below` and `count_below` say of any test that the closure's calls agree with.

ghost use Rattle.std.specs.Prelude.{◌≡◌, ◌<◌, ℕ, Bool};
ghost use Rattle.laws.specs.Search.{AgreesBelow, any_below, lowest_below, count_below};

// Whether some number below `end` passes.
pub fn any_below<F: Fn(u32) -> bool>(end: u32, test: F) -> bool
    requires { (i : ℕ) → i < end → F.pre test i }
    ensures { (passes : ℕ → Bool)
        → AgreesBelow (F.post test) passes end
        → result ≡ any_below passes end }
{
    lowest_below(end, test).is_some()
}

// The lowest number below `end` that passes.
#[tactic(auto, using(crate::proofs::Search::search_steps))]
pub fn lowest_below<F: Fn(u32) -> bool>(end: u32, test: F) -> Option<u32>
    requires { (i : ℕ) → i < end → F.pre test i }
    ensures { (passes : ℕ → Bool)
        → AgreesBelow (F.post test) passes end
        → result ≡ lowest_below passes end }
{
    for i in 0..end {
        if test(i) {
            return Some(i);
        }
    }
    None
}

// How many numbers below `end` pass.
#[tactic(auto, using(crate::proofs::Search::count_steps))]
pub fn count_below<F: Fn(u32) -> bool>(end: u32, test: F) -> u32
    requires { (i : ℕ) → i < end → F.pre test i }
    ensures { (passes : ℕ → Bool)
        → AgreesBelow (F.post test) passes end
        → result ≡ count_below passes end }
{
    let mut count = 0;
    for i in 0..end {
        if test(i) {
            count += 1;
        }
    }
    count
}
