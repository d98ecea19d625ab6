// The sizes of a sheet, and its trailer, which points back.
ghost use Rattle.std.specs.Prelude.{◌≡◌, ◌^◌, ◌<◌};
ghost use Rattle.sheet.specs.Sheet as Sheet;

use crate::edition::Edition;
use crate::request::{CORE, REQUEST, request_size};

pub const TRAILER: usize = 16;

// A sheet of the newest edition without its items.
pub const FRAME: usize = REQUEST + TRAILER;

// The shortest sheet.
pub(crate) const LEAST: usize = CORE + TRAILER;

// The request's position 8n is a u32, so n is below this.
pub(crate) const ITEMS_BOUND: usize = 536870912;

// A sheet of an edition without its items.
pub(crate) fn frame_size(e: Edition) -> usize
    ensures value { result ≡ Sheet.frame_size e }
    ensures upper_bound { result < 2 ^ 10 }
{
    request_size(e) + TRAILER
}

// The trailer: the number of items n, the request's position 8n, the edition and six zeros. For n below
// 2^60, 8n is a u64.
#[tactic(auto, using(crate::proofs::bytes::Same::number_bytes), unfolding(crate::specs::Bytes::bytes, crate::specs::Sheet::trailer))]
pub(crate) fn trailer(e: Edition, n: usize) -> [u8; TRAILER]
    requires { n < 2 ^ 60 }
    ensures { result ≡ Sheet.trailer e n }
{
    let n = n as u64;
    let mut t = [0; TRAILER];
    t[..4].copy_from_slice(&n.to_le_bytes()[..4]);
    t[4..8].copy_from_slice(&(8 * n).to_le_bytes()[..4]);
    t[8..10].copy_from_slice(&e.number().to_le_bytes());
    t
}
