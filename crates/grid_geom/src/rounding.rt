// Whole square roots and rounded quotients.
ghost use Rattle.std.specs.Prelude.{◌≡◌, ◌+ℤ◌, ◌*ℤ◌, ◌≤ℤ◌, ◌<ℤ◌, pos};
ghost use Rattle.grid_geom.specs.Bounds.{IsWithin};

// The bounds of what the calls here take.
const GREATEST_SQUARE: i128 = 1_267_650_600_228_229_401_496_703_205_376; // 2^100

const GREATEST_ROOT: i128 = 1_125_899_906_842_624; // 2^50

const GREATEST_DIVIDEND: i128 = 42_535_295_865_117_307_932_921_825_928_971_026_432; // 2^125

const GREATEST_DIVISOR: i128 = 1_237_940_039_285_380_274_899_124_224; // 2^90

/// The greatest whole number whose square is at most n, which is from 0 to 2^100.
pub fn isqrt(n: i128) -> i128
    requires not_negative { pos 0 ≤ℤ n }
    requires small { n ≤ℤ GREATEST_SQUARE }
    ensures least { (result *ℤ result) ≤ℤ n }
    ensures greatest { n <ℤ ((result +ℤ pos 1) *ℤ (result +ℤ pos 1)) }
    ensures not_negative { pos 0 ≤ℤ result }
    ensures small { result ≤ℤ GREATEST_ROOT }
{
    n.isqrt()
}

/// The whole number nearest to n/d, halves upwards: d is from 1 to 2^90, and n at most 2^125 in absolute value.
pub fn round_div(n: i128, d: i128) -> i128
    requires n_small { IsWithin GREATEST_DIVIDEND n }
    requires d_positive { pos 0 <ℤ d }
    requires d_small { d ≤ℤ GREATEST_DIVISOR }
    ensures least { (pos 2 *ℤ d *ℤ result) ≤ℤ (pos 2 *ℤ n +ℤ d) }
    ensures greatest { (pos 2 *ℤ n +ℤ d) <ℤ (pos 2 *ℤ d *ℤ (result +ℤ pos 1)) }
{
    (2 * n + d).div_euclid(2 * d)
}
