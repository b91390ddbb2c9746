//! What earlier rounds count beside a new one.
ghost use Rattle.std.specs.Prelude.{◌^◌, ◌≤◌, ◌<◌};

/// By what a lane's regrets are multiplied, in parts of 2^30, after so many rounds: q / (q + 2^10), where q is 2^10
/// times the square root of the cube of the rounds.
pub(crate) fn discount(rounds: u32) -> u32
    ensures { result ≤ 2 ^ 30 }
{
    let q = discounted_root(rounds) + 1024;
    let lost = ((1 << 40) + q - 1) / q;
    (1 << 30) - lost as u32
}

fn discounted_root(rounds: u32) -> u64
    ensures { result ≤ 2 ^ 59 }
{
    let t = rounds as u128;
    let cube = t.wrapping_mul(t).wrapping_mul(t);
    (cube.wrapping_mul(1 << 20).isqrt() as u64).min(1 << 59)
}

/// What a round weighs in a lane's sums, where those of earlier rounds were divided by their weight at each doubling:
/// its number to this power, between 2^16 and 2^20.
pub(crate) fn weight_of_round(round: u32, power: u32) -> u64
    requires { power ≤ 4 }
{
    let t = round as u128;
    let square = t.wrapping_mul(t);
    let weight = if power == 2 {
        square
    } else {
        square.wrapping_mul(square)
    };
    scaled(weight, round.max(1).ilog2() * power)
}

fn scaled(weight: u128, bits: u32) -> u64
    requires { bits < 128 }
{
    let scaled = if bits > 16 {
        weight >> (bits - 16)
    } else {
        weight << (16 - bits)
    };
    scaled.min(1 << 20) as u64
}
