//! Marks.

ghost use Rattle.std.specs.Prelude.{◌≡◌, ◌<◌, IfSome, [], slice_index_or, take};
ghost use Rattle.cl_lexer.specs.Marks.{mark_length, mark_number, mark_of, marks, may_be_mark, may_end_mark};

/// The number of `#`.
pub const HASH: u8 = 2;

/// The longest mark that a text begins with, by its number.
pub fn mark_of(text: &[u8]) -> Option<u8>
    ensures mark { result ≡ mark_of text.now }
    ensures within { IfSome result (λ number. number < 46) }
{
    mark_number(beginning(text, 3))
        .or(mark_number(beginning(text, 2)))
        .or(mark_number(beginning(text, 1)))
}

/// The length of a mark.
pub fn mark_length(number: u8) -> usize
    requires { number < 46 }
    ensures { result ≡ mark_length number }
{
    mark_at(number).len()
}

// At most so many bytes of a text.
fn beginning(text: &[u8], most: usize) -> &[u8]
    ensures { result.now ≡ take most text.now }
{
    if most < text.len() {
        &text[..most]
    } else {
        text
    }
}

// The number of the mark that a word is.
#[tactic(auto, using(crate::proofs::Marks::mark_steps))]
fn mark_number(word: &[u8]) -> Option<u8>
    ensures number { result ≡ mark_number word.now }
    ensures within { IfSome result (λ number. number < 46) }
{
    if !may_be_mark(word) {
        return None;
    }
    for number in 0..46 {
        if mark_at(number) == word {
            return Some(number);
        }
    }
    None
}

// Whether a word may be a mark, by its length and its last byte.
fn may_be_mark(word: &[u8]) -> bool
    ensures { result ≡ may_be_mark word.now }
{
    if word.len() == 3 {
        word[2] == b'='
    } else if word.len() == 2 {
        may_end_mark(word[1])
    } else {
        true
    }
}

fn may_end_mark(byte: u8) -> bool
    ensures { result ≡ may_end_mark byte }
{
    byte == b'='
        || byte == b'&'
        || byte == b'+'
        || byte == b'-'
        || byte == b'<'
        || byte == b'>'
        || byte == b'|'
}

// The bytes of a mark.
#[tactic(auto, unfolding(crate::specs::Marks::marks))]
fn mark_at(number: u8) -> &'static [u8]
    requires { number < 46 }
    ensures { result.now ≡ slice_index_or marks number [] }
{
    match number {
        0 => b"!",
        1 => b"!=",
        2 => b"#",
        3 => b"%",
        4 => b"%=",
        5 => b"&",
        6 => b"&&",
        7 => b"&=",
        8 => b"(",
        9 => b")",
        10 => b"*",
        11 => b"*=",
        12 => b"+",
        13 => b"++",
        14 => b"+=",
        15 => b",",
        16 => b"-",
        17 => b"--",
        18 => b"-=",
        19 => b"->",
        20 => b".",
        21 => b"/",
        22 => b"/=",
        23 => b":",
        24 => b";",
        25 => b"<",
        26 => b"<<",
        27 => b"<<=",
        28 => b"<=",
        29 => b"=",
        30 => b"==",
        31 => b">",
        32 => b">=",
        33 => b">>",
        34 => b">>=",
        35 => b"?",
        36 => b"[",
        37 => b"]",
        38 => b"^",
        39 => b"^=",
        40 => b"{",
        41 => b"|",
        42 => b"|=",
        43 => b"||",
        44 => b"}",
        45 => b"~",
        _ => unreachable!(),
    }
}
