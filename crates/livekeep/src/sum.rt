//! Check sums.

ghost use Rattle.std.specs.Prelude.{◌≡◌};
ghost use Rattle.livekeep.specs.CheckSums.{sum_of};

/// The modulus of both sums: the greatest prime below 2^16.
const MODULUS: u64 = 65_521;

/// The check sum of some bytes: Adler-32 (RFC 1950, 8.2).
#[tactic(auto, unfolding(crate::specs::CheckSums::sum_of))]
pub(crate) fn sum_of(bytes: &[u8]) -> u64
    ensures { result ≡ sum_of bytes.now }
{
    let mut first: u64 = 1;
    let mut second: u64 = 0;
    for byte in bytes {
        first = (first + u64::from(*byte)) % MODULUS;
        second = (second + first) % MODULUS;
    }
    second * 65_536 + first
}
