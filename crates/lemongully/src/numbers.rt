// The number that C gets of an operation's answer.
ghost use Rattle.std.specs.Prelude.{◌≡◌, ◌<◌, ◌^◌, IfOk};
ghost use Rattle.lemongully.specs.Numbers.{signed};

use polynomial::refusals::Numbered;

// The count, or minus the refusal's number. The program `vectors` has one of its own: no crate can stand on
// this one, which is the archive for C.
pub(crate) fn signed_number<E: Numbered>(answer: Result<usize, E>) -> i64
    requires { IfOk answer (λ n. n < 2 ^ 63) }
    ensures { result ≡ signed E.number answer }
{
    match answer {
        Ok(n) => n as i64,
        Err(k) => -i64::from(k.number()),
    }
}
