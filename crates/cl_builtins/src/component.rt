//! What a built-in function makes of one component.

ghost use Rattle.std.specs.Prelude.{◌≡◌, ◌+ℤ◌, ◌-ℤ◌, ◌*ℤ◌, ◌≤ℤ◌, ◌<ℤ◌, ◌*◌, ◌+◌, ◌%◌, ◌^◌, ◌<◌, IsTrue, ℤ, pos, neg_ℤ, [], ◌∷◌, unsigned_abs, count_ones, if◌then◌else◌, true, false, FitsSigned};
ghost use Rattle.std.specs.Int.{int_min, int_max, w128};
ghost use Rattle.std.specs.Int.Count.{count_leading_zeros};
ghost use Rattle.clv_num.specs.Numbers.{is_width, pattern_of, add_of, mul_of, floor_of};
ghost use Rattle.cl_builtins.specs.Values.{number, least_of, greatest_of, saturated, half_of, high_half, rotated, chooses, TakesWidths, width_in, patterns, width_of, value_of};

use cl_types::Builtin;
use clv_num::Bits;

// The number that a component stands for.
fn exact(x: Bits, signed: bool) -> i128
    ensures is { result ≡ number x.width signed x.value }
    ensures least { neg_ℤ (pos (2 ^ 63)) ≤ℤ result }
    ensures greatest { result <ℤ pos (2 ^ 64) }
{
    if signed {
        x.signed() as i128
    } else {
        x.value as i128
    }
}

// What so many bits leave of a number.
fn cut(width: u8, number: i128) -> Bits
    requires { IsTrue (is_width width) }
    ensures width { result.width ≡ width }
    ensures value { result.value ≡ pattern_of width number }
{
    Bits::new(width, number.rem_euclid(1 << 64) as u64)
}

fn least(width: u8, signed: bool) -> i128
    requires { IsTrue (is_width width) }
    ensures { result ≡ least_of width signed }
{
    if signed { -(1 << (width - 1)) } else { 0 }
}

fn greatest(width: u8, signed: bool) -> i128
    requires { IsTrue (is_width width) }
    ensures { result ≡ greatest_of width signed }
{
    let bits = if signed { width - 1 } else { width };
    (1 << bits) - 1
}

// The number of a type that is nearest to a number.
fn saturate(width: u8, signed: bool, number: i128) -> Bits
    requires { IsTrue (is_width width) }
    ensures width { result.width ≡ width }
    ensures value { result.value ≡ saturated width signed number }
{
    let nearest = number
        .max(least(width, signed))
        .min(greatest(width, signed));
    cut(width, nearest)
}

fn sum(x: Bits, y: Bits, signed: bool) -> i128
    requires { x.width ≡ y.width }
    ensures is { result ≡ number x.width signed x.value +ℤ number x.width signed y.value }
    ensures small { result <ℤ pos (2 ^ 65) }
{
    exact(x, signed) + exact(y, signed)
}

fn difference(x: Bits, y: Bits, signed: bool) -> i128
    requires { x.width ≡ y.width }
    ensures is { result ≡ number x.width signed x.value -ℤ number x.width signed y.value }
    ensures small { FitsSigned w128 (neg_ℤ result) }
{
    exact(x, signed) - exact(y, signed)
}

// Half of a number, rounded down.
fn half(number: i128) -> i128
    ensures { result ≡ half_of number }
{
    number >> 1
}

// Half of the number above, rounded down.
fn half_up(number: i128) -> i128
    requires { number <ℤ pos (2 ^ 65) }
    ensures { result ≡ half_of (number +ℤ pos 1) }
{
    half(number + 1)
}

fn clamp(x: Bits, low: Bits, high: Bits, signed: bool) -> Bits
    requires second { x.width ≡ low.width }
    requires third { x.width ≡ high.width }
    ensures width { result.width ≡ x.width }
    ensures value { result.value ≡ pattern_of x.width (int_min (int_max (number x.width signed x.value) (number x.width signed low.value)) (number x.width signed high.value)) }
{
    let raised = exact(x, signed).max(exact(low, signed));
    cut(x.width, raised.min(exact(high, signed)))
}

// Only a product of unsigned numbers may saturate here, and it is then out of their range with any of
// them added.
fn mad_sat(x: Bits, y: Bits, z: Bits, signed: bool) -> Bits
    requires second { x.width ≡ y.width }
    requires third { x.width ≡ z.width }
    ensures width { result.width ≡ x.width }
    ensures value { result.value ≡ saturated x.width signed (number x.width signed x.value *ℤ number x.width signed y.value +ℤ number x.width signed z.value) }
{
    let product = exact(x, signed).saturating_mul(exact(y, signed));
    saturate(x.width, signed, product.saturating_add(exact(z, signed)))
}

#[tactic(auto, using(crate::proofs::Leading::at_width))]
fn clz(x: Bits) -> Bits
    ensures width { result.width ≡ x.width }
    ensures value { result.value ≡ count_leading_zeros x.width x.value }
{
    Bits::new(
        x.width,
        (x.value.leading_zeros() + x.width as u32 - 64) as u64,
    )
}

fn popcount(x: Bits) -> Bits
    ensures width { result.width ≡ x.width }
    ensures value { result.value ≡ count_ones x.value }
{
    Bits::new(x.width, x.value.count_ones() as u64)
}

// The exact product of signed numbers.
#[tactic(auto, using(crate::proofs::Saturated::wide_product))]
fn signed_product(x: Bits, y: Bits) -> i128
    requires { x.width ≡ y.width }
    ensures { result ≡ number x.width true x.value *ℤ number x.width true y.value }
{
    x.signed() as i128 * y.signed() as i128
}

// The exact product of unsigned numbers.
fn unsigned_product(x: Bits, y: Bits) -> u128
    ensures { pos result ≡ number x.width false x.value *ℤ number x.width false y.value }
{
    x.value as u128 * y.value as u128
}

// The upper half of a product.
fn upper(width: u8, product: i128) -> Bits
    requires { IsTrue (is_width width) }
    ensures width { result.width ≡ width }
    ensures value { result.value ≡ high_half width product }
{
    cut(width, product >> width)
}

fn mul_hi(x: Bits, y: Bits, signed: bool) -> Bits
    requires { x.width ≡ y.width }
    ensures width { result.width ≡ x.width }
    ensures value { result.value ≡ high_half x.width (number x.width signed x.value *ℤ number x.width signed y.value) }
{
    if signed {
        upper(x.width, signed_product(x, y))
    } else {
        Bits::new(x.width, (unsigned_product(x, y) >> x.width) as u64)
    }
}

fn rotate(x: Bits, by: u64) -> Bits
    ensures width { result.width ≡ x.width }
    ensures value { result.value ≡ rotated x.width x.value by }
{
    let places = (by % x.width as u64) as u32;
    if places == 0 {
        x
    } else {
        x.shl(places).or(x.lshr(x.width as u32 - places))
    }
}

fn upsample(hi: Bits, lo: Bits) -> Bits
    requires equal { hi.width ≡ lo.width }
    requires narrow { hi.width < 64 }
    ensures width { result.width ≡ 2 * hi.width }
    ensures value { result.value ≡ hi.value * 2 ^ hi.width + lo.value }
{
    Bits::new(2 * hi.width, (hi.value << hi.width) + lo.value)
}

// A number at another width, signed there or not, of one that is signed or not here.
fn convert(x: Bits, signed: bool, width: u8, to_signed: bool, sat: bool) -> Bits
    requires { IsTrue (is_width width) }
    ensures width { result.width ≡ width }
    ensures value { result.value ≡ (if sat then saturated width to_signed (number x.width signed x.value) else pattern_of width (number x.width signed x.value)) }
{
    if sat {
        saturate(width, to_signed, exact(x, signed))
    } else {
        x.convert(signed, width)
    }
}

// A scalar chooses where it isn't 0, a component of a vector by its high bit.
fn chooses(vector: bool, x: Bits) -> bool
    ensures { result ≡ chooses vector x.width x.value }
{
    if vector {
        x.value >> (x.width - 1) != 0
    } else {
        x.value != 0
    }
}

fn of_one(builtin: Builtin, x: Bits, signed: bool) -> Bits
    requires { TakesWidths builtin (x ∷ []) }
    ensures width { result.width ≡ width_of builtin x.width }
    ensures value { result.value ≡ value_of builtin x.width signed (x.value ∷ []) }
{
    match builtin {
        Builtin::Abs => cut(x.width, exact(x, signed).abs()),
        Builtin::Clz => clz(x),
        Builtin::Popcount => popcount(x),
        Builtin::Convert {
            bits,
            signed: to_signed,
            sat,
        } => convert(x, signed, bits, to_signed, sat),
        _ => unreachable!(),
    }
}

fn of_two(builtin: Builtin, x: Bits, y: Bits, signed: bool) -> Bits
    requires { TakesWidths builtin (x ∷ y ∷ []) }
    ensures width { result.width ≡ width_of builtin x.width }
    ensures value { result.value ≡ value_of builtin x.width signed (x.value ∷ y.value ∷ []) }
{
    let width = x.width;
    match builtin {
        Builtin::AbsDiff => cut(width, difference(x, y, signed).abs()),
        Builtin::AddSat => saturate(width, signed, sum(x, y, signed)),
        Builtin::SubSat => saturate(width, signed, difference(x, y, signed)),
        Builtin::Hadd => cut(width, half(sum(x, y, signed))),
        Builtin::Rhadd => cut(width, half_up(sum(x, y, signed))),
        Builtin::Min => cut(width, exact(x, signed).min(exact(y, signed))),
        Builtin::Max => cut(width, exact(x, signed).max(exact(y, signed))),
        Builtin::MulHi => mul_hi(x, y, signed),
        Builtin::Mul24 => x.mul(y),
        Builtin::Rotate => rotate(x, y.value),
        Builtin::Upsample => upsample(x, y),
        _ => unreachable!(),
    }
}

fn of_three(builtin: Builtin, x: Bits, y: Bits, z: Bits, signed: bool) -> Bits
    requires { TakesWidths builtin (x ∷ y ∷ z ∷ []) }
    ensures width { result.width ≡ width_of builtin x.width }
    ensures value { result.value ≡ value_of builtin x.width signed (x.value ∷ y.value ∷ z.value ∷ []) }
{
    match builtin {
        Builtin::MadSat => mad_sat(x, y, z, signed),
        Builtin::Clamp => clamp(x, y, z, signed),
        Builtin::MadHi => mul_hi(x, y, signed).add(z),
        Builtin::Mad24 => x.mul(y).add(z),
        Builtin::Select { vector } => { if chooses(vector, z) { y } else { x } }
        _ => unreachable!(),
    }
}

/// What a built-in function on integers makes of one component of its arguments, which are signed or not
/// (OpenCL C 1.2, 6.12.3; `convert_R` of 6.2.3, by whether its argument is signed; `select` of 6.12.6).
/// The arguments are as many as the function has, of widths that it takes. It takes no memory and has no error.
pub fn value(builtin: Builtin, args: &[Bits], signed: bool) -> Bits
    requires { TakesWidths builtin args.now }
    ensures width { result.width ≡ width_of builtin (width_in args.now) }
    ensures value { result.value ≡ value_of builtin (width_in args.now) signed (patterns args.now) }
{
    match args {
        [x] => of_one(builtin, *x, signed),
        [x, y] => of_two(builtin, *x, *y, signed),
        [x, y, z] => of_three(builtin, *x, *y, *z, signed),
        _ => unreachable!(),
    }
}
