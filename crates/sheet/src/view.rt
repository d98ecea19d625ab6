// A request's bytes, and what kind and flags they say.
ghost use Rattle.std.specs.Prelude.{◌≡◌, ◌≤◌, length};
ghost use Rattle.sheet.specs.Request as Request;

use crate::request::{Shape, shape_from};

// The bytes of a request of any edition: what every request has is there. `View { request }` is a view
// of any bytes that are that many.
#[derive(Clone, Copy)]
pub struct View<'a> {
    pub request: &'a [u8],
    ghost whole: { Request.core_size ≤ length request.now },
}

impl View<'_> {
    // The shape of a request: its kind and flags, if they are right, on which it depends what is read.
    // Each who asks takes it anew, of three bytes: as a field it would ask of a view that they are right.
    #[tactic(auto, unfolding(crate::specs::Request::shape_of))]
    pub(crate) fn shape(self) -> Option<Shape>
        ensures { result ≡ Request.shape_of self.entry.request.now }
    {
        shape_from(self.request[0], self.request[1], self.request[2])
    }
}
