// Places in a line.
ghost use Rattle.std.specs.Prelude.{◌≡◌, min};

// The place that comes first. `min` calls std, whose code `Linked` cannot show.
#[tactic(auto, using(std::proofs::lemmas::Bool::Decides::nat_tests))]
pub(crate) fn least(a: usize, b: usize) -> usize
    ensures { result ≡ min a b }
{
    if a < b { a } else { b }
}
