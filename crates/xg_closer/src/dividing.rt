//! Shares of all units by a guess: a division of 64 bits takes several times as long as the guess and its test.
ghost use Rattle.std.specs.Prelude.{◌≡◌, ◌*◌, ◌/◌, ◌^◌, ◌<◌, ◌≤◌};
ghost use Rattle.def_round.specs.Play.{units};
ghost use Rattle.def_sums.specs.Limits.{past_product};

use def_round::UNITS;
use def_sums::PAST_DEALT;

/// What the parts of a sum are multiplied by in place of a division. Nothing rests on how near it is.
#[derive(Clone, Copy)]
pub(crate) struct Inverse {
    zeros: u32,
    near: u64,
}

/// The inverse of a sum, by a step of Newton's method from a table, or hardly more, so that a share that leaves nothing
/// over isn't guessed too small. Of a sum past 64 bits it is that of the lowest ones.
pub(crate) fn inverse_of(sum: u128) -> Inverse {
    let low = (sum & u64::MAX as u128) as u64;
    let zeros = low.leading_zeros() & 63;
    let top = low << zeros;
    let first = INVERSES[(top >> 54) as usize & 511] as u64;
    let near = first * ((1 << 48) + (9 << 24) - first * (top >> 32));
    Inverse { zeros, near }
}

/// A part's share of all units, rounded down. Whether there is a part at all can't be foretold, so no branch asks it.
pub(crate) fn units_of(part: u128, sum: u128, inverse: Inverse) -> u32
    requires some { 1 ≤ sum }
    requires small { units * sum < past_product }
    requires within { part ≤ sum }
    ensures { result ≡ units * part / sum }
{
    if sum < PAST_DEALT {
        units_of_small(part as u64, sum as u64, inverse) as u32
    } else {
        units_of_large(part, sum)
    }
}

// The share by a guess. As the guess is tested, it need not be near, but one that fails costs a division.
fn units_of_small(part: u64, sum: u64, inverse: Inverse) -> u64
    requires some { 1 ≤ sum }
    requires small { sum < 2 ^ 47 }
    requires within { part ≤ sum }
    ensures { result ≡ units * part / sum }
{
    let dealt = UNITS as u64 * part;
    let guess = guess_units(part, inverse);
    let low = guess * sum;
    // Where the guess is too great, what would be left wraps to more than any sum.
    if dealt.wrapping_sub(low) < sum {
        guess
    } else {
        dealt / sum
    }
}

// The share, or seldom one more, by the inverse of the sum.
fn guess_units(part: u64, inverse: Inverse) -> u64
    ensures { result < 2 ^ 17 }
{
    let product = (part << (inverse.zeros & 63)) as u128 * inverse.near as u128;
    (product >> 110) as u64 & 0x1_ffff
}

// A division of 128 bits takes several times as long as one of 64.
#[inline(never)]
fn units_of_large(part: u128, sum: u128) -> u32
    requires some { 1 ≤ sum }
    requires small { units * sum < past_product }
    requires within { part ≤ sum }
    ensures { result ≡ units * part / sum }
{
    if part == 0 {
        return 0;
    }
    if part == sum {
        return UNITS;
    }
    (UNITS as u128 * part / sum) as u32
}

// 2 ^ 25 over each number of 10 bits and a half, rounded. An entry that is wrong costs time alone.
static INVERSES: [u16; 512] = [
    65472, 65345, 65218, 65091, 64965, 64839, 64714, 64590, 64466, 64342, 64219, 64096, 63974,
    63852, 63731, 63610, 63490, 63370, 63251, 63132, 63013, 62895, 62777, 62660, 62543, 62427,
    62311, 62195, 62080, 61966, 61851, 61738, 61624, 61511, 61399, 61287, 61175, 61064, 60953,
    60842, 60732, 60622, 60513, 60404, 60295, 60187, 60080, 59972, 59865, 59759, 59652, 59546,
    59441, 59336, 59231, 59127, 59023, 58919, 58816, 58713, 58610, 58508, 58406, 58305, 58204,
    58103, 58002, 57902, 57803, 57703, 57604, 57505, 57407, 57309, 57211, 57114, 57017, 56920,
    56824, 56728, 56632, 56537, 56441, 56347, 56252, 56158, 56064, 55971, 55877, 55785, 55692,
    55600, 55508, 55416, 55325, 55234, 55143, 55052, 54962, 54872, 54783, 54693, 54604, 54516,
    54427, 54339, 54251, 54164, 54076, 53989, 53903, 53816, 53730, 53644, 53559, 53473, 53388,
    53303, 53219, 53134, 53050, 52967, 52883, 52800, 52717, 52634, 52552, 52470, 52388, 52306,
    52225, 52144, 52063, 51982, 51902, 51822, 51742, 51662, 51583, 51503, 51424, 51346, 51267,
    51189, 51111, 51033, 50956, 50879, 50802, 50725, 50648, 50572, 50496, 50420, 50344, 50269,
    50194, 50119, 50044, 49969, 49895, 49821, 49747, 49673, 49600, 49527, 49454, 49381, 49308,
    49236, 49164, 49092, 49020, 48949, 48878, 48806, 48736, 48665, 48594, 48524, 48454, 48384,
    48315, 48245, 48176, 48107, 48038, 47969, 47901, 47832, 47764, 47696, 47629, 47561, 47494,
    47427, 47360, 47293, 47227, 47160, 47094, 47028, 46962, 46896, 46831, 46766, 46701, 46636,
    46571, 46506, 46442, 46378, 46314, 46250, 46186, 46123, 46060, 45996, 45934, 45871, 45808,
    45746, 45683, 45621, 45559, 45498, 45436, 45374, 45313, 45252, 45191, 45130, 45070, 45009,
    44949, 44889, 44829, 44769, 44709, 44650, 44591, 44531, 44472, 44414, 44355, 44296, 44238,
    44180, 44122, 44064, 44006, 43948, 43891, 43833, 43776, 43719, 43662, 43605, 43549, 43492,
    43436, 43380, 43324, 43268, 43212, 43157, 43101, 43046, 42991, 42936, 42881, 42826, 42772,
    42717, 42663, 42609, 42555, 42501, 42447, 42393, 42340, 42287, 42233, 42180, 42127, 42075,
    42022, 41969, 41917, 41865, 41812, 41760, 41708, 41657, 41605, 41553, 41502, 41451, 41400,
    41349, 41298, 41247, 41196, 41146, 41095, 41045, 40995, 40945, 40895, 40845, 40796, 40746,
    40697, 40647, 40598, 40549, 40500, 40451, 40403, 40354, 40306, 40257, 40209, 40161, 40113,
    40065, 40017, 39970, 39922, 39875, 39827, 39780, 39733, 39686, 39639, 39592, 39546, 39499,
    39453, 39406, 39360, 39314, 39268, 39222, 39176, 39131, 39085, 39039, 38994, 38949, 38904,
    38859, 38814, 38769, 38724, 38679, 38635, 38590, 38546, 38502, 38458, 38414, 38370, 38326,
    38282, 38239, 38195, 38152, 38108, 38065, 38022, 37979, 37936, 37893, 37850, 37808, 37765,
    37723, 37680, 37638, 37596, 37554, 37512, 37470, 37428, 37387, 37345, 37303, 37262, 37221,
    37179, 37138, 37097, 37056, 37015, 36975, 36934, 36893, 36853, 36812, 36772, 36732, 36692,
    36651, 36611, 36572, 36532, 36492, 36452, 36413, 36373, 36334, 36295, 36255, 36216, 36177,
    36138, 36099, 36061, 36022, 35983, 35945, 35906, 35868, 35830, 35791, 35753, 35715, 35677,
    35639, 35602, 35564, 35526, 35489, 35451, 35414, 35376, 35339, 35302, 35265, 35228, 35191,
    35154, 35117, 35080, 35044, 35007, 34971, 34934, 34898, 34862, 34826, 34789, 34753, 34717,
    34682, 34646, 34610, 34574, 34539, 34503, 34468, 34432, 34397, 34362, 34327, 34292, 34257,
    34222, 34187, 34152, 34117, 34083, 34048, 34014, 33979, 33945, 33910, 33876, 33842, 33808,
    33774, 33740, 33706, 33672, 33639, 33605, 33571, 33538, 33504, 33471, 33437, 33404, 33371,
    33338, 33305, 33272, 33239, 33206, 33173, 33140, 33107, 33075, 33042, 33010, 32977, 32945,
    32913, 32880, 32848, 32816, 32784,
];
