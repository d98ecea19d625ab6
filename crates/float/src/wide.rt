// Numbers of 128 bits, for the fused product.
ghost use Rattle.std.specs.Prelude.{◌≡◌};
ghost use Rattle.float.specs.Promises.Jam as Jam;

// x shifted right by d, with the last digit set where anything but zeros went out. A shift by 127
// takes all but the first digit, and one by more leaves the same.
#[tactic(auto, using(crate::proofs::wide::Jammed::jam_whole, crate::proofs::wide::Jammed::jam_lossy))]
pub fn jam(x: u128, d: u64) -> u128
    ensures { result ≡ Jam.jam x d }
{
    let e = d.min(127);
    let cut = x >> e;
    if cut << e == x { cut } else { cut | 1 }
}
