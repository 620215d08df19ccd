// The greatest common divisor by Euclid's rule, and from it the least common multiple, which stops counting.
ghost use Rattle.std.specs.Prelude.{◌≡◌};
ghost use Rattle.minplus.specs.Divisor.{gcd, lcm};
ghost use Rattle.horizon.specs.Capped.{capped};

use crate::LIMIT;

pub(crate) fn common_divisor(a: u32, b: u32) -> u32
    ensures { result ≡ gcd a b }
{
    if b == 0 { a } else { common_divisor(b, a % b) }
}

// 4,097 for any multiple above 4,096: it is not multiplied out, so that a small word is enough. The only multiple of 0
// is 0, and past that the divisor is not 0.
pub(crate) fn common_multiple(a: u32, b: u32) -> u32
    ensures { result ≡ capped (lcm a b) }
{
    if b == 0 {
        return 0;
    }
    let times = a / common_divisor(a, b);
    if times <= LIMIT / b {
        times * b
    } else {
        LIMIT + 1
    }
}
