// The request: where its fields stand, which of them are read, and the request with every unread
// field zero.
ghost use Rattle.std.specs.Prelude.{◌≡◌, ◌≤◌, length, drop};
ghost use Rattle.std.proofs.lemmas.List.Edits.{sets};
ghost use Rattle.sheet.specs.Bytes as Bytes;
ghost use Rattle.sheet.specs.Edition.{newest};
ghost use Rattle.sheet.specs.Request as Request;

use crate::bytes::bytes_at;
use crate::edition::Edition;
use crate::view::View;
use sampling::job::Kind;
pub use sampling::reads::Shape;

// Sizes and positions, in bytes; specs/Request.antt has the same. The core is what every request
// has, the name what it has from edition 2 on.
pub(crate) const CORE: usize = 264;

pub const NAME: usize = CORE;

pub(crate) const NAME_SIZE: usize = 32;

// A request of the newest edition.
pub const REQUEST: usize = CORE + NAME_SIZE;

pub(crate) const SIGNS: usize = 4;

pub(crate) const RESERVED: usize = 10;

pub(crate) const ROTATION: usize = 16;

pub(crate) const ARM: usize = 48;

pub(crate) const REFERENCES: usize = 72;

pub(crate) const OFFSETS: usize = 120;

pub(crate) const FROM: usize = 168;

pub(crate) const TO: usize = 216;

// The classes of fields that are not always read.
#[derive(Clone, Copy)]
pub enum Field {
    Sign,
    Arm,
    Reference,
    Offset,
    From,
    To,
}

// The bytes of a request.
pub(crate) fn request_size(e: Edition) -> usize
    ensures { result ≡ Request.request_size e }
{
    match e {
        Edition::One => CORE,
        Edition::Two => REQUEST,
    }
}

// The shape of the three bytes, if each is right. An Option and no `TryFrom`: the definitions say of any
// bytes what is read, the blank and the job, so that these go on with an Option, and an error would be
// thrown away.
#[tactic(auto, unfolding(crate::specs::Request::shape_from, crate::specs::Request::shape_fixed, crate::specs::Request::shape_by))]
pub(crate) fn shape_from(kind: u8, limits: u8, fixed: u8) -> Option<Shape>
    ensures { result ≡ Request.shape_from kind limits fixed }
{
    let kind = match kind {
        1 => Kind::J1free,
        2 => Kind::J2free,
        3 => Kind::J1j2free,
        _ => return None,
    };
    if limits > 1 || fixed > 1 {
        return None;
    }
    Some(Shape {
        kind,
        limits: limits == 1,
        fixed: fixed == 1,
    })
}

// Whether a field is read: none is under a wrong kind or flag.
#[tactic(auto, unfolding(crate::specs::Request::reads))]
#[inline(always)]
pub(crate) fn field_read(s: Option<Shape>, f: Field, j: usize) -> bool
    ensures { result ≡ Request.reads s f j }
{
    s.is_some_and(|s| match f {
        Field::Sign | Field::Offset => s.joint_read(j),
        Field::Arm => s.arm_read(j),
        Field::Reference => s.reference_read(j),
        Field::From | Field::To => s.limits & s.joint_read(j),
    })
}

// Whether a byte of the request is read.
#[tactic(auto, unfolding(crate::specs::Request::byte_read))]
#[inline(always)]
pub(crate) fn byte_read(s: Option<Shape>, i: usize) -> bool
    ensures { result ≡ Request.byte_read s i }
{
    if i < SIGNS {
        return true;
    }
    if i < RESERVED {
        return field_read(s, Field::Sign, i - SIGNS + 1);
    }
    if i < ARM {
        return true;
    }
    if i < REFERENCES {
        return field_read(s, Field::Arm, (i - ARM) / 8 + 1);
    }
    if i < OFFSETS {
        return field_read(s, Field::Reference, (i - REFERENCES) / 8 + 1);
    }
    if i < FROM {
        return field_read(s, Field::Offset, (i - OFFSETS) / 8 + 1);
    }
    if i < TO {
        return field_read(s, Field::From, (i - FROM) / 8 + 1);
    }
    if i < NAME {
        return field_read(s, Field::To, (i - TO) / 8 + 1);
    }
    true
}

// Where the field of joint j, or the arm's angle j, starts. A joint's number is a plain one with its
// bounds in the clause, as the loops count it and sampling's functions take it.
pub(crate) fn place(f: Field, j: usize) -> usize
    requires { (1 ≤ j) × (j ≤ 6) }
    ensures { result ≡ Request.place f j }
{
    match f {
        Field::Sign => SIGNS + (j - 1),
        Field::Arm => ARM + 8 * (j - 1),
        Field::Reference => REFERENCES + 8 * (j - 1),
        Field::Offset => OFFSETS + 8 * (j - 1),
        Field::From => FROM + 8 * (j - 1),
        Field::To => TO + 8 * (j - 1),
    }
}

// The first sixteen bytes of the request, each zero where it is not read. What is left to write then is
// what stands behind them. Here and in the next two what is lent is as long as the request: a fact of both.
fn put_head(out: &mut [u8], view: View)
    requires { length out.old ≡ length view.request.now }
    ensures { let r = view.entry.request.now in
        sets out.new 16 (Request.blank_from (Request.shape_of r) 16 (drop 16 r)) ≡ sets out.old 0 (Request.blank r) }
{
    let s = view.shape();
    // by the byte's number, which `byte_read` asks for
    for i in 0..ROTATION {
        let b = if byte_read(s, i) { view.request[i] } else { 0 };
        out[i] = b;
    }
}

// The fields from the rotation to the name, eight bytes each, which are read or not together. What is
// left to write then is the name.
fn put_fields(out: &mut [u8], view: View)
    requires { length out.old ≡ length view.request.now }
    ensures { let r = view.entry.request.now in
        sets out.new 264 (Request.blank_from (Request.shape_of r) 264 (drop 264 r)) ≡
        sets out.old 16 (Request.blank_from (Request.shape_of r) 16 (drop 16 r)) }
{
    let s = view.shape();
    for i in (ROTATION..NAME).step_by(8) {
        let field = if byte_read(s, i) {
            bytes_at(view.request, i)
        } else {
            [0; 8]
        };
        out[i..i + 8].copy_from_slice(&field);
    }
}

// The request with every unread field zero. The name is copied as an array: from slice to slice the copy
// would be a call of `memmove`, which the archive does not ask for.
pub(crate) fn put_blank(out: &mut [u8], view: View)
    requires { (length out.old ≡ length view.request.now) × (length view.request.now ≡ Request.request_size newest) }
    ensures { out.new ≡ Request.blank view.entry.request.now }
{
    put_head(out, view);
    put_fields(out, view);
    let name: [u8; NAME_SIZE] = bytes_at(view.request, NAME);
    out[NAME..].copy_from_slice(&name);
}

// Whether every unread field is zero: the request is its own blank.
#[tactic(auto, using(crate::proofs::request::Steps::comparing))]
pub(crate) fn unread_zero(view: View) -> bool
    ensures { result ≡ Bytes.same_bytes (Request.blank view.entry.request.now) view.entry.request.now }
{
    let s = view.shape();
    for (i, b) in view.request.iter().enumerate() {
        if *b != 0 && !byte_read(s, i) {
            return false;
        }
    }
    true
}
