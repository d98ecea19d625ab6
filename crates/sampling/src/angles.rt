// Angles of a free joint, in a list of fixed size.
use arrayvec::ArrayVec;

// The most that are found: 282 boundary angles of one free joint, 256 bends of two.
pub(crate) const ANGLES: usize = 300;

// A function that adds some asks for their room, and says how many it adds at most: a fact of each
// call, which no type of the list has. Where each gave a list of its own, the extension behind every
// call would ask for the same room, and the angles would be copied once more.
pub(crate) type Angles = ArrayVec<f64, ANGLES>;
