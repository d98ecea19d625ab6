// Cuts in the lent work slice.
ghost use Rattle.std.specs.Prelude.{◌≡◌, [], ◌∷◌, ◌≤◌, Some, length};
ghost use Rattle.std.specs.Option.{ForSome};
ghost use Rattle.sampling.specs.Promises.Plan.{zeros};

use polynomial::cuts::insert;

// Cuts in the front of a slice, and their number, or none where there was no place once.
#[derive(Drop)]
pub struct Cuts<'a> {
    pub work: &'a mut [f64],
    pub count: Option<usize>,
    ghost within: { ForSome count (λ n. n ≤ length work.now) },
}

impl<'a> Cuts<'a> {
    ghost use Rattle.sampling.specs.Promises.Grown.{Grown};

    // No cut yet.
    #[inline]
    pub(crate) fn new(work: &'a mut [f64]) -> Self
        ensures same_reference { result.work.ghost_name ≡ work.entry.ghost_name }
        ensures same { result.work.now ≡ work.old }
        ensures count { result.count ≡ Some 0 }
    {
        Self {
            work,
            count: Some(0),
        }
    }

    // Puts v among the cuts. Where there was no place once, that stays so, and a caller that has more
    // to find out goes on.
    #[inline]
    pub(crate) fn push(&mut self, v: f64)
        ensures { Grown (v ∷ []) self.old self.new }
    {
        let Some(n) = self.count else {
            return;
        };
        self.count = insert(self.work, n, v);
    }
}

// Every place becomes +0.0.
pub fn clear(work: &mut [f64])
    ensures { work.new ≡ zeros (length work.old) }
{
    work.fill(0.0);
}
