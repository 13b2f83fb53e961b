//! Lines and columns of a text.

ghost use Rattle.std.specs.Prelude.{◌≡◌, ◌<◌, ◌≤◌, ◌+◌, ◌^◌, length};
ghost use Rattle.clv_place.specs.Places.{IsAt};

/// A line and a column, both from 1. A column counts bytes. A line ends at its LF.
#[derive(Clone, Copy, PartialEq, Eq, Debug)]
pub struct Place {
    pub line: u32,
    pub col: u32,
}

/// The place of the byte at an index from 0, or of the end of the text. It takes no memory.
#[tactic(auto, using(crate::proofs::LineStarts::line_steps))]
pub fn place_at(text: &[u8], at: usize) -> Place
    requires within { at ≤ length text.now }
    requires small { at + 1 < 2 ^ 32 }
    ensures { IsAt text.now at result.line result.col }
{
    let mut line = 1;
    let mut start = 0;
    for i in 0..at {
        if text[i] == b'\n' {
            line += 1;
            start = i + 1;
        }
    }
    Place {
        line,
        col: (at - start + 1) as u32,
    }
}
