//! The order of x modulo a generator, which says how far apart two changed bits may be.

ghost use Rattle.std.specs.Prelude.{◌<◌, ◌≤◌, ◌^◌};
ghost use Rattle.crc.specs.{Congruent, HasOrderFrom, IsServable, generator, parameters};

use crate::algorithm::Algorithm;
use crate::register;
use crate::width::Width;

/// Returns the order of x modulo the generator of an algorithm, which is the least d above 0 with
/// x^d congruent to 1; or `limit` if the order isn't below that.
/// [`two_in_message`](crate::laws::two_in_message) says what it tells of damage.
///
/// It makes as many steps as the result has; the order is at most 2^width - 1. A generator with no
/// constant term, as none of the catalogue is, has no such d.
pub fn order_from<W: Width>(algorithm: &Algorithm<W>, limit: u64) -> u64
    requires { IsServable W.Width algorithm.now }
    ensures at_most_limit { result ≤ limit }
    ensures not_zero { 0 < limit → 0 < result }
    ensures none_below { HasOrderFrom result (parameters W.number algorithm.now) }
    ensures is_order { result < limit
        → Congruent (generator (parameters W.number algorithm.now)) (2 ^ result) 1 }
{
    // For the prover: no width is above 128.
    let _bits = W::bits();
    let width = u32::from(algorithm.width);
    let poly = algorithm.poly.to_u128();
    let mut power = 1;
    for d in 1..limit {
        power = register::next(false, width, poly, power);
        if power == 1 {
            return d;
        }
    }
    limit
}
