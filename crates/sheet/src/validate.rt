// The tests that a request must pass: refusals 1 to 8 and 41.
ghost use Rattle.std.specs.Prelude.{◌≡◌, ◌≤◌, ◌||◌, eqb};
ghost use Rattle.sampling.specs.Pose as Pose;
ghost use Rattle.sheet.specs.Request as Request;
ghost use Rattle.sheet.specs.Fields as Fields;
ghost use Rattle.sheet.specs.Validate as Validate;
ghost use Rattle.sheet.specs.Promises.Tested as Promise;

use crate::edition::Edition;
use crate::refusals::Refusal;
use crate::request::{Field, NAME, RESERVED, field_read, place, request_size};
use crate::view::View;
use float::number::is_finite;
use float::trig::TWO_PI;
use sampling::pose::{Quaternion, try_normalize};

// Whether the bytes are zero.
fn all_zero(bytes: &[u8]) -> bool
    ensures { result ≡ Validate.all_zero bytes.now }
{
    bytes.iter().all(|b| *b == 0)
}

// 2: kind, flags and reserved bytes.
#[tactic(auto, using(crate::proofs::validate::Names::reserved_zero), unfolding(crate::specs::Validate::head_right, crate::specs::Validate::right))]
fn head_right(view: View) -> bool
    ensures { result ≡ Validate.head_right view.entry.request.now }
{
    let request = view.request;
    view.shape().is_some() & (request[3] == 0) & all_zero(&request[RESERVED..RESERVED + 6])
}

// The characters of names: 32 to 126.
fn is_character(b: u8) -> bool
    ensures { result ≡ Validate.is_character b }
{
    (32..=126).contains(&b)
}

// Whether a name is characters, then zeros to the end.
#[tactic(auto, using(crate::proofs::validate::Names::reading))]
fn is_name(name: &[u8]) -> bool
    ensures { result ≡ Validate.is_name name.now }
{
    for (i, b) in name.iter().enumerate() {
        if !is_character(*b) {
            return all_zero(&name[i..]);
        }
    }
    true
}

// 41: the name. A request of edition 1 ends before it.
#[tactic(auto, using(crate::proofs::validate::Names::name_behind))]
fn name_right(view: View) -> bool
    ensures { result ≡ Validate.name_right view.entry.request.now }
{
    is_name(&view.request[NAME..])
}

// Whether a byte is a sign's.
fn is_sign(b: u8) -> bool
    ensures { result ≡ (eqb b 1 || eqb b 255) }
{
    b == 1 || b == 255
}

// 3: a read sign is 1 or 255.
fn signs_right(view: View) -> bool
    ensures { result ≡ Validate.signs_right view.entry.request.now }
{
    let s = view.shape();
    (1..7).all(|j| !field_read(s, Field::Sign, j) || is_sign(view.request[place(Field::Sign, j)]))
}

// Whether x lies between minus the bound and the bound; a NaN does not.
#[tactic(auto, unfolding(crate::specs::Validate::within))]
fn within(bound: f64, x: f64) -> bool
    ensures { result ≡ Validate.within bound x }
{
    (-bound <= x) & (x <= bound)
}

// What a class of fields asks of a float.
#[tactic(auto, unfolding(crate::specs::Validate::passes, crate::proofs::Literals::of_bits))]
fn passes(f: Field, x: f64) -> bool
    ensures { result ≡ Validate.passes f x }
{
    match f {
        Field::Sign => true,
        Field::Arm => within(8.0, x),
        Field::Reference => is_finite(x),
        Field::Offset => within(TWO_PI, x),
        Field::From => true,
        Field::To => true,
    }
}

// Whether the read fields of a class, of which there are n, pass. Beside `signs_right`, since a sign
// is a byte, these are floats, and the definitions are two.
fn fields_right(f: Field, view: View, n: usize) -> bool
    requires { n ≤ 6 }
    ensures { result ≡ Validate.all_from n 1 (Validate.field_right (Request.shape_of view.entry.request.now) f view.entry.request.now) }
{
    let s = view.shape();
    (1..n + 1).all(|j| !field_read(s, f, j) || passes(f, view.field(f, j)))
}

// 6 to 8: arm angles, references, offsets; for a rotation that is normalized to q.
#[tactic(auto, unfolding(crate::specs::Validate::arm_within, crate::specs::Validate::references_finite, crate::specs::Validate::offsets_within))]
fn validate_fields(view: View, q: Quaternion) -> Result<Quaternion, Refusal>
    ensures { result ≡ Promise.tested_fields view.entry.request.now q }
{
    if !fields_right(Field::Arm, view, 3) {
        return Err(Refusal::Arm);
    }
    if !fields_right(Field::Reference, view, 6) {
        return Err(Refusal::Reference);
    }
    if !fields_right(Field::Offset, view, 6) {
        return Err(Refusal::Offset);
    }
    Ok(q)
}

// Refusals 4 and 5, of the rotation, and then 6 to 8; where none is met, the normalized rotation.
#[tactic(auto, unfolding(crate::specs::Promises::Tested::tested_rotation))]
fn validate_rotation(view: View) -> Result<Quaternion, Refusal>
    ensures { result ≡ Promise.tested_rotation view.entry.request.now (Pose.try_normalize (Fields.rotation_of view.entry.request.now)) }
{
    let q = try_normalize(view.rotation())?;
    validate_fields(view, q)
}

// The first of refusals 1 to 8 that a request of an edition meets, in order, 41 after 2; where none
// is met, the normalized rotation.
#[tactic(auto, unfolding(crate::specs::Promises::Tested::tested))]
pub(crate) fn validate(e: Edition, request: &[u8]) -> Result<Quaternion, Refusal>
    ensures { result ≡ Promise.tested e request.now }
{
    if request.len() != request_size(e) {
        return Err(Refusal::Length);
    }
    let view = View { request };
    if !head_right(view) {
        return Err(Refusal::Head);
    }
    if !name_right(view) {
        return Err(Refusal::Name);
    }
    if !signs_right(view) {
        return Err(Refusal::Sign);
    }
    validate_rotation(view)
}
