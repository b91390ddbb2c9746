//! Worked rows of the definitions.
#![tactic(auto, unfolding(def_fraction::specs::Reading::read_as_literal, def_fraction::specs::Reading::read_as_whole, def_fraction::specs::Reading::literal_of, def_fraction::specs::Reading::value_of, def_fraction::specs::Reading::body_of, def_fraction::specs::Reading::body_after, def_fraction::specs::Reading::decimal_of, def_fraction::specs::Reading::power_of, def_fraction::specs::Fraction::fraction_of, def_fraction::specs::Divisors::gcd))]

ghost use Rattle.std.specs.Prelude.{◌≡◌, ◌∷◌, [], map, codes, replicate, pos, negsuc, Ok, Err};
ghost use Rattle.def_fraction.specs.declared.fault.NumberFault.TheVariants.{Form, ZeroDenominator, Range};
ghost use Rattle.def_fraction.specs.Fraction.{whole_number};
ghost use Rattle.def_fraction.specs.Reading.{read_as_literal, read_as_whole};

/// `.50`, `5e-1`, `2/4` and their like are one half, and minus one half with `-`; others are ten, and zero.
pub fn literals_with_values()
    ensures halves { map read_as_literal (
        codes ".50"
        ∷ codes "5e-1"
        ∷ codes "1/2"
        ∷ codes "+0.5"
        ∷ codes "00.500"
        ∷ codes "2/4"
        ∷ codes ".05E+1"
        ∷ codes "50.e-02" ∷ [])
        ≡ replicate 8 (Ok (record { num = pos 1; den = 2 })) }
    ensures minus_halves { map read_as_literal (
        codes "-.50"
        ∷ codes "-5e-1"
        ∷ codes "-1/2"
        ∷ codes "-0.5" ∷ [])
        ≡ replicate 4 (Ok (record { num = negsuc 0; den = 2 })) }
    ensures tens { map read_as_literal (
        codes "10"
        ∷ codes "+10"
        ∷ codes "1e1"
        ∷ codes "1E+1"
        ∷ codes "10."
        ∷ codes ".1e2"
        ∷ codes "010/01" ∷ [])
        ≡ replicate 7 (Ok (whole_number (pos 10))) }
    ensures zeros { map read_as_literal (
        codes "-0"
        ∷ codes "0"
        ∷ codes "+0/7"
        ∷ codes "-.0"
        ∷ codes "0e99" ∷ [])
        ≡ replicate 5 (Ok (whole_number (pos 0))) }
{}

/// No bytes at all, `1e`, `.`, `1/-2`, `1e100`, ` 1` and their like are no literal; `1/0` has the denominator 0.
pub fn literals_that_are_none()
    ensures form { map read_as_literal (
        codes ""
        ∷ codes "1e"
        ∷ codes "."
        ∷ codes "+"
        ∷ codes "1/2/3"
        ∷ codes "1/-2"
        ∷ codes "1e100"
        ∷ codes "0x1"
        ∷ codes "1/"
        ∷ codes "/2"
        ∷ codes "1.5/2"
        ∷ codes "e1"
        ∷ codes "1e+"
        ∷ codes "--1"
        ∷ codes "1.2.3"
        ∷ codes " 1" ∷ [])
        ≡ replicate 16 (Err Form) }
    ensures zero_denominator { map read_as_literal (
        codes "1/0"
        ∷ codes "-0/00" ∷ [])
        ≡ replicate 2 (Err ZeroDenominator) }
{}

/// Parts up to 2^127 - 1 may be written, and up to 2^62 in lowest terms; one more is out of range, and so are `0e-99`
/// and `1e99`.
pub fn literals_at_the_limits()
    ensures written_limit { read_as_literal
        (codes "170141183460469231731687303715884105727/170141183460469231731687303715884105727")
        ≡ Ok (whole_number (pos 1)) }
    ensures lowest_limit { map read_as_literal (
        codes "4611686018427387904"
        ∷ codes "+4611686018427387904" ∷ [])
        ≡ replicate 2 (Ok (whole_number (pos 4611686018427387904))) }
    ensures range { map read_as_literal (
        codes "170141183460469231731687303715884105728"
        ∷ codes "1/170141183460469231731687303715884105728"
        ∷ codes "170141183460469231731687303715884105728/170141183460469231731687303715884105728"
        ∷ codes "4611686018427387905"
        ∷ codes "-4611686018427387905"
        ∷ codes "1/4611686018427387905"
        ∷ codes "0e-99"
        ∷ codes "1e99" ∷ [])
        ≡ replicate 8 (Err Range) }
{}

/// `0`, `007` and 2^62 are whole numbers; with a sign, a point or a bar bytes are none; 2^62 + 1 is out of range.
pub fn whole_numbers()
    ensures values { map read_as_whole (
        codes "0"
        ∷ codes "007"
        ∷ codes "4611686018427387904" ∷ [])
        ≡ Ok 0 ∷ Ok 7 ∷ Ok 4611686018427387904 ∷ [] }
    ensures form { map read_as_whole (
        codes ""
        ∷ codes "+1"
        ∷ codes "-0"
        ∷ codes "1.0"
        ∷ codes "1/1" ∷ []) ≡ replicate 5 (Err Form) }
    ensures range { read_as_whole (codes "4611686018427387905") ≡ Err Range }
{}
