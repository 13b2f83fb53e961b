//! Numbers in decimal digits.

ghost use Rattle.std.specs.Prelude.{◌≡◌};
ghost use Rattle.launch_text.specs.Said.{number_of};

/// The number that decimal digits write, if it is no greater than the most. Leading zeros are allowed.
#[tactic(auto, using(crate::proofs::Numbers::numbers))]
pub fn number(word: &[u8], most: u64) -> Option<u64>
    ensures { result ≡ number_of most word.now }
{
    let mut value: u64 = 0;
    for digit in word {
        if !digit.is_ascii_digit() {
            return None;
        }
        let more = value as u128 * 10 + (*digit - b'0') as u128;
        if more > most as u128 {
            return None;
        }
        value = more as u64;
    }
    Some(value)
}
