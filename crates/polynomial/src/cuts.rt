// Cuts of an interval: angles in a lent slice, sorted and with no value twice, into which one value
// at a time is put.
ghost use Rattle.std.specs.Prelude.{◌≡◌, ◌∷◌, ◌+◌, ◌<◌, ◌≤◌, length, drop};
ghost use Rattle.std.proofs.Math.Seq.{paste};
ghost use Rattle.float.specs.Number as Number;
ghost use Rattle.polynomial.specs.Promises.Insert.{passed, put_answer, put_room, Found};

use float::number::is_sign_positive;

// Whether the sign's bit is set, of a zero as well.
fn negative(x: f64) -> bool
    ensures { result ≡ Number.negative x }
{
    !is_sign_positive(x)
}

// v goes past w: it comes later, and does not equal it. A NaN goes past every number. No order of std is
// this: `total_cmp` tells the zeros apart, and `partial_cmp` has no answer at a NaN.
#[tactic(auto, using(crate::proofs::cuts::Passed::passed_cases))]
fn passes(w: f64, v: f64) -> bool
    ensures { result ≡ passed v w }
{
    w < v || v.is_nan() && !w.is_nan()
}

// The first place that v does not go past, or the list's length. What stands there may be in any
// order, so it is not searched by halves.
fn find(list: &[f64], v: f64) -> usize
    ensures { Found list.now v result }
{
    list.iter()
        .position(|w| !passes(*w, v))
        .unwrap_or(list.len())
}

// Moves `many` values from `at` one place up, and puts v before them. By places of the whole slice: where
// it was lent the part alone, the move became a call of `memmove`, which the archive does not ask for.
fn shift(room: &mut [f64], at: usize, many: usize, v: f64)
    requires { at + many < length room.old }
    ensures { room.new ≡ paste room.old at (v ∷ drop at room.old) (many + 1) }
{
    room.copy_within(at..at + many, at + 1);
    room[at] = v;
}

// Puts v into the list in the first `count` places of room: the list's new length, or none where
// there is no room for one more. The list may stand in a slice that C lends, so its length goes beside it.
pub fn insert(room: &mut [f64], count: usize, v: f64) -> Option<usize>
    requires { count ≤ length room.old }
    ensures value { result ≡ put_answer room.old count v }
    ensures room_after { room.new ≡ put_room room.old count v }
{
    let at = find(&room[..count], v);
    if at < count {
        let w = room[at];
        if w == v {
            if negative(v) {
                room[at] = v;
                return Some(count);
            }
            if negative(w) {
                return Some(count);
            }
            room[at] = v;
            return Some(count);
        }
    }
    if count == room.len() {
        return None;
    }
    shift(room, at, count - at, v);
    Some(count + 1)
}
