ghost use Rattle.std.specs.Prelude.{◌≡◌, ℕ, pos, ◌*ℤ◌, ◌≤ℤ◌, ◌<◌, ◌^◌, unsigned_abs};
ghost use Rattle.std.specs.Int.{IsGcd, ◌∣◌};
ghost use Rattle.plan_grid.specs.Bounds.{IsDivisor};
ghost use Rattle.plan_grid.specs.Fraction.{IsLcm};
ghost use Rattle.plan_grid.specs.OddParts.{IsOddPart};

/// The greatest common divisor, by differences of odd numbers.
pub fn gcd(a: u64, b: u64) -> u64
    ensures { IsGcd a b result }
{
    if a == 0 {
        return b;
    }
    if b == 0 {
        return a;
    }
    let twos = a.trailing_zeros().min(b.trailing_zeros());
    let mut x = odd_part(a);
    let mut y = odd_part(b);
    while x != y {
        let rest = odd_part(x.abs_diff(y));
        y = x.min(y);
        x = rest;
    }
    x << twos
}

// What is left of the number without its factors of two.
fn odd_part(n: u64) -> u64
    requires { 0 < n }
    ensures { IsOddPart n result }
{
    n >> n.trailing_zeros()
}

/// The greatest number that divides all three, where `w` is positive.
pub fn divisor(x: i64, y: i64, w: i64) -> u64
    requires { pos 1 ≤ℤ w }
    ensures { IsDivisor (record { x = x; y = y; w = w }) result }
{
    gcd(gcd(x.unsigned_abs(), y.unsigned_abs()), w.unsigned_abs())
}

/// `a / d`, where `d` divides `a`.
pub fn quotient(a: i64, d: u64) -> i64
    requires d_positive { 0 < d }
    requires d_bounded { d < 2 ^ 63 }
    requires divides { d ∣ unsigned_abs a }
    ensures { result *ℤ pos d ≡ a }
{
    a / (d as i64)
}

/// The least common multiple.
pub fn lcm(a: u64, b: u64) -> u64
    requires a_positive { 0 < a }
    requires b_positive { 0 < b }
    requires bounded { (l : ℕ) → IsLcm a b l → l < 2 ^ 64 }
    ensures least { IsLcm a b result }
    ensures positive { 0 < result }
{
    a / gcd(a, b) * b
}
