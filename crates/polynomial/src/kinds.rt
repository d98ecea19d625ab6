// How a root arose: touching or crossing (02, change 1).
ghost use Rattle.std.specs.Prelude.{◌≡◌, ◌++◌, map, ◌≤◌, length, drop};
ghost use Rattle.polynomial.specs.Kinds as Kinds;

// A root with its value: a partition point near zero, or the end of a bisection. The quotient of
// degree 1 counts as a crossing.
#[derive(Clone, Copy)]
pub enum Root {
    Touch(f64),
    Crossing(f64),
}

// 1 for a touch and 2 for a crossing, as the C interface has it.
impl From<Root> for u8 {
    ghost from_gives = { λ r b. b ≡ Kinds.kind r };

    fn from(root: Root) -> u8 {
        match root {
            Root::Touch(_) => 1,
            Root::Crossing(_) => 2,
        }
    }
}

// The root x: a touch if one of the points near zero equals it.
fn marked(near: &[f64], x: f64) -> Root
    ensures { result ≡ Kinds.marked near.now x }
{
    if near.contains(&x) {
        Root::Touch(x)
    } else {
        Root::Crossing(x)
    }
}

// The kinds of the roots, in the first places of kinds. What stands behind is left.
#[tactic(auto, using(crate::proofs::kinds::Marks::written, crate::proofs::kinds::Marks::whole))]
pub(crate) fn mark(near: &[f64], roots: &[f64], kinds: &mut [u8])
    requires { length roots.now ≤ length kinds.old }
    ensures { kinds.new ≡ map Kinds.kind (map (Kinds.marked near.now) roots.now) ++ drop (length roots.now) kinds.old }
{
    // by index, since of what is written through `iter_mut().zip(..)` nothing is known
    for (i, x) in roots.iter().enumerate() {
        kinds[i] = u8::from(marked(near, *x));
    }
}
