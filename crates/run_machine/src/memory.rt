//! Writes to buffers.

ghost use Rattle.std.specs.Prelude.{◌≡◌, ◌<◌, ◌^◌};
ghost use Rattle.spv_meaning.specs.Events.{Write};
ghost use Rattle.spv_meaning.specs.Worlds.{put_at, low_bytes, after_event};
ghost use Rattle.run_machine.specs.Views.{spot_of};

use crate::spot::Spot;
use clv_place::Text;

// Writes so many low bytes of a value from an offset on, the lowest first. What would stand past the end
// isn't written.
#[tactic(auto, using(crate::proofs::Writes::bytes))]
fn put(bytes: &mut Text, offset: u128, value: u32, count: u32)
    requires { offset < 2 ^ 100 }
    ensures { bytes.new ≡ put_at offset (low_bytes count value) bytes.old }
{
    let mut rest = value;
    for k in 0..count {
        let at = offset + k as u128;
        if at < bytes.len() as u128 {
            bytes.set(at as usize, (rest % 256) as u8);
        }
        rest /= 256;
    }
}

/// Writes a value where a scalar of a buffer stands.
#[tactic(auto, using(crate::proofs::Writes::buffers))]
pub fn write(buffers: &mut [Text], at: Spot, value: u32)
    ensures { buffers.new ≡ after_event (Write (spot_of at) value) buffers.old }
{
    let buffer = at.buffer as usize;
    if buffer < buffers.len() {
        put(&mut buffers[buffer], at.offset, value, at.bits / 8);
    }
}
