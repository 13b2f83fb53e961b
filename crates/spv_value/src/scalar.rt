//! Scalars in bytes.

ghost use Rattle.std.specs.Prelude.{◌≡◌, ◌≤◌, ◌+◌, ◌/◌, ◌<◌, ◌^◌, IsTrue, length, IfSome};
ghost use Rattle.clv_num.specs.Numbers.{is_width};
ghost use Rattle.spv_value.specs.Views.{number_at, width_in};

use clv_num::Bits;
use spv_module::Inst;
use spv_module::lookup::definition;
use spv_module::reading::Said;

// The number of two bytes from a place on.
fn pair(bytes: &[u8], at: usize) -> u64
    requires { at + 2 ≤ length bytes.now }
    ensures value { result ≡ number_at bytes.now at 2 }
    ensures bound { result < 65536 }
{
    u64::from(bytes[at]) + 256 * u64::from(bytes[at + 1])
}

// The number of four bytes from a place on.
fn quad(bytes: &[u8], at: usize) -> u64
    requires { at + 4 ≤ length bytes.now }
    ensures value { result ≡ number_at bytes.now at 4 }
    ensures bound { result < 4294967296 }
{
    pair(bytes, at) + 65536 * pair(bytes, at + 2)
}

// The number of eight bytes from a place on.
fn octet(bytes: &[u8], at: usize) -> u64
    requires { at + 8 ≤ length bytes.now }
    ensures { result ≡ number_at bytes.now at 8 }
{
    quad(bytes, at) + 4_294_967_296 * quad(bytes, at + 4)
}

// The scalar of a width that stands at a place.
pub(crate) fn scalar(bytes: &[u8], at: usize, width: u8) -> Bits
    requires is_width { IsTrue (is_width width) }
    requires inside { at + width / 8 ≤ length bytes.now }
    ensures inside { at + width / 8 ≤ length bytes.now }
    ensures width { result.width ≡ width }
    ensures value { result.value ≡ number_at bytes.now at (width / 8) }
{
    match width {
        8 => Bits {
            width: 8,
            value: u64::from(bytes[at]),
        },
        16 => Bits {
            width: 16,
            value: pair(bytes, at),
        },
        32 => Bits {
            width: 32,
            value: quad(bytes, at),
        },
        _ => Bits {
            width: 64,
            value: octet(bytes, at),
        },
    }
}

// The width of a scalar type. None for any other type.
pub(crate) fn width(body: &[Inst], ty: u32) -> Option<u8>
    ensures value { result ≡ width_in body.now ty }
    ensures is_width { IfSome result (λ w. IsTrue (is_width w)) }
{
    match definition(body, ty) {
        Some(Said::IntType { width: 8, .. }) => Some(8),
        Some(Said::IntType { width: 16, .. }) => Some(16),
        Some(Said::IntType { width: 32, .. }) => Some(32),
        Some(Said::IntType { width: 64, .. }) => Some(64),
        _ => None,
    }
}
