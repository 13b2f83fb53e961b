//! Words.

ghost use Rattle.std.specs.Prelude.{◌≡◌, ◌<◌, [], slice_index_or, IsTrue};
ghost use Rattle.cl_grammar.specs.declared.terminal.Terminal.TheVariants as t;
ghost use Rattle.cl_grammar.specs.Lookup.{fingerprint, may_be_word, number_of};
ghost use Rattle.cl_grammar.specs.Words.{is_image, meaning_among, terminal_of_word, words};

use crate::terminal::Terminal;
use cl_types::Space;

/// The longest name that stands in a sentence, in bytes.
pub const MAX_NAME: usize = 65_535;

/// The longest spelling, in bytes.
const MAX_WORD: usize = 13;

/// How many spellings are keywords; those behind them are refused.
const KEYWORDS: u8 = 71;

/// The terminal that a word is before any typedef: a keyword (C99 6.4.1; OpenCL C 1.2, 6.1), a word that is
/// refused, or a name.
#[tactic(auto, unfolding(crate::specs::Words::terminal_of_word))]
pub fn terminal_of_word(word: &[u8]) -> Terminal
    ensures { result ≡ terminal_of_word word.now }
{
    if word.len() > MAX_NAME {
        Terminal::Stray
    } else if is_image(word) {
        Terminal::Refused
    } else {
        keyword(word).unwrap_or(Terminal::Name)
    }
}

// Whether a word names an image type.
fn is_image(word: &[u8]) -> bool
    ensures { result ≡ is_image word.now }
{
    word.starts_with(b"image") && word.ends_with(b"_t")
}

// The terminal that a keyword is.
#[tactic(auto, using(crate::proofs::Words::word_steps))]
fn keyword(word: &[u8]) -> Option<Terminal>
    ensures { result ≡ meaning_among words word.now }
{
    if !may_be_word(word) {
        return None;
    }
    let number = number_of(word);
    if spelling(number) == word {
        Some(meaning(number))
    } else {
        None
    }
}

fn may_be_word(word: &[u8]) -> bool
    ensures { result ≡ may_be_word word.now }
{
    0 < word.len() && word.len() <= MAX_WORD
}

const SHIFTS: [u8; 32] = [
    3, 66, 47, 115, 60, 0, 104, 80, 76, 21, 0, 47, 6, 93, 83, 51, 33, 79, 79, 99, 4, 40, 11, 55,
    64, 29, 113, 0, 0, 88, 7, 90,
];

const NUMBERS: [u8; 128] = [
    13, 87, 38, 111, 95, 23, 52, 106, 25, 37, 47, 90, 85, 3, 81, 51, 26, 1, 4, 21, 64, 45, 107, 6,
    31, 30, 59, 22, 7, 48, 102, 50, 0, 32, 16, 78, 109, 0, 0, 93, 8, 84, 68, 67, 15, 41, 9, 117,
    19, 61, 24, 101, 54, 58, 70, 104, 77, 113, 57, 72, 0, 103, 63, 0, 86, 0, 112, 66, 53, 115, 83,
    110, 99, 0, 79, 73, 75, 42, 49, 0, 0, 44, 33, 94, 100, 97, 35, 40, 36, 46, 91, 96, 11, 17, 5,
    10, 89, 76, 0, 20, 18, 29, 116, 12, 39, 27, 56, 98, 74, 28, 88, 114, 92, 69, 80, 108, 62, 43,
    105, 71, 65, 60, 34, 82, 55, 2, 14, 0,
];

// The number of the only spelling that a word may be.
#[tactic(auto, unfolding(crate::specs::Lookup::number_of, crate::specs::Lookup::shifts, crate::specs::Lookup::numbers))]
fn number_of(word: &[u8]) -> u8
    requires { IsTrue (may_be_word word.now) }
    ensures { result ≡ number_of word.now }
{
    let fingerprint = fingerprint(word);
    let shift = usize::from(SHIFTS[fingerprint % 32]);
    NUMBERS[(fingerprint / 32 + shift) % 128]
}

fn fingerprint(word: &[u8]) -> usize
    requires { IsTrue (may_be_word word.now) }
    ensures { result ≡ fingerprint word.now }
{
    let first = usize::from(word[0]);
    let middle = usize::from(word[word.len() / 2]);
    let last = usize::from(word[word.len() - 1]);
    16 * first + 2 * middle + 11 * last + 3 * word.len()
}

// A spelling.
#[tactic(auto, unfolding(crate::specs::Words::words))]
fn spelling(number: u8) -> &'static [u8]
    requires { number < 118 }
    ensures { result.now ≡ (slice_index_or words number ([], t.Name)).0 }
{
    match number {
        0 => b"typedef",
        1 => b"kernel",
        2 => b"__kernel",
        3 => b"inline",
        4 => b"static",
        5 => b"__attribute__",
        6 => b"const",
        7 => b"volatile",
        8 => b"restrict",
        9 => b"__restrict",
        10 => b"global",
        11 => b"__global",
        12 => b"constant",
        13 => b"__constant",
        14 => b"local",
        15 => b"__local",
        16 => b"private",
        17 => b"__private",
        18 => b"void",
        19 => b"bool",
        20 => b"signed",
        21 => b"unsigned",
        22 => b"char",
        23 => b"short",
        24 => b"int",
        25 => b"long",
        26 => b"uchar",
        27 => b"ushort",
        28 => b"uint",
        29 => b"ulong",
        30 => b"char2",
        31 => b"char3",
        32 => b"char4",
        33 => b"uchar2",
        34 => b"uchar3",
        35 => b"uchar4",
        36 => b"short2",
        37 => b"short3",
        38 => b"short4",
        39 => b"ushort2",
        40 => b"ushort3",
        41 => b"ushort4",
        42 => b"int2",
        43 => b"int3",
        44 => b"int4",
        45 => b"uint2",
        46 => b"uint3",
        47 => b"uint4",
        48 => b"long2",
        49 => b"long3",
        50 => b"long4",
        51 => b"ulong2",
        52 => b"ulong3",
        53 => b"ulong4",
        54 => b"size_t",
        55 => b"ptrdiff_t",
        56 => b"intptr_t",
        57 => b"uintptr_t",
        58 => b"struct",
        59 => b"if",
        60 => b"else",
        61 => b"while",
        62 => b"do",
        63 => b"for",
        64 => b"switch",
        65 => b"case",
        66 => b"default",
        67 => b"break",
        68 => b"continue",
        69 => b"return",
        70 => b"sizeof",
        71 => b"float",
        72 => b"float2",
        73 => b"float3",
        74 => b"float4",
        75 => b"float8",
        76 => b"float16",
        77 => b"double",
        78 => b"double2",
        79 => b"double3",
        80 => b"double4",
        81 => b"double8",
        82 => b"double16",
        83 => b"half",
        84 => b"half2",
        85 => b"half3",
        86 => b"half4",
        87 => b"half8",
        88 => b"half16",
        89 => b"char8",
        90 => b"char16",
        91 => b"uchar8",
        92 => b"uchar16",
        93 => b"short8",
        94 => b"short16",
        95 => b"ushort8",
        96 => b"ushort16",
        97 => b"int8",
        98 => b"int16",
        99 => b"uint8",
        100 => b"uint16",
        101 => b"long8",
        102 => b"long16",
        103 => b"ulong8",
        104 => b"ulong16",
        105 => b"goto",
        106 => b"enum",
        107 => b"union",
        108 => b"auto",
        109 => b"register",
        110 => b"extern",
        111 => b"printf",
        112 => b"sampler_t",
        113 => b"event_t",
        114 => b"read_only",
        115 => b"write_only",
        116 => b"__read_only",
        117 => b"__write_only",
        _ => unreachable!(),
    }
}

// The terminal that a spelling stands for.
#[tactic(auto, using(crate::proofs::Words::refused_words))]
fn meaning(number: u8) -> Terminal
    requires { number < 118 }
    ensures { result ≡ (slice_index_or words number ([], t.Name)).1 }
{
    if number < KEYWORDS {
        keyword_meaning(number)
    } else {
        Terminal::Refused
    }
}

// The terminal that a keyword is.
#[tactic(auto, unfolding(crate::specs::Words::words))]
fn keyword_meaning(number: u8) -> Terminal
    requires { number < 71 }
    ensures { result ≡ (slice_index_or words number ([], t.Name)).1 }
{
    match number {
        0 => Terminal::Typedef,
        1 | 2 => Terminal::Kernel,
        3 => Terminal::Inline,
        4 => Terminal::Static,
        5 => Terminal::Attribute,
        6 => Terminal::Const,
        7 => Terminal::Volatile,
        8 | 9 => Terminal::Restrict,
        10 | 11 => Terminal::Space(Space::Global),
        12 | 13 => Terminal::Space(Space::Constant),
        14 | 15 => Terminal::Space(Space::Local),
        16 | 17 => Terminal::Space(Space::Private),
        18 => Terminal::Void,
        19 => Terminal::Bool,
        20 => Terminal::Signed,
        21 => Terminal::Unsigned,
        22 => Terminal::Char,
        23 => Terminal::Short,
        24 => Terminal::Int,
        25 => Terminal::Long,
        26 => Terminal::UnsignedInt { bits: 8 },
        27 => Terminal::UnsignedInt { bits: 16 },
        28 => Terminal::UnsignedInt { bits: 32 },
        29 => Terminal::UnsignedInt { bits: 64 },
        30 => vector(8, true, 2),
        31 => vector(8, true, 3),
        32 => vector(8, true, 4),
        33 => vector(8, false, 2),
        34 => vector(8, false, 3),
        35 => vector(8, false, 4),
        36 => vector(16, true, 2),
        37 => vector(16, true, 3),
        38 => vector(16, true, 4),
        39 => vector(16, false, 2),
        40 => vector(16, false, 3),
        41 => vector(16, false, 4),
        42 => vector(32, true, 2),
        43 => vector(32, true, 3),
        44 => vector(32, true, 4),
        45 => vector(32, false, 2),
        46 => vector(32, false, 3),
        47 => vector(32, false, 4),
        48 => vector(64, true, 2),
        49 => vector(64, true, 3),
        50 => vector(64, true, 4),
        51 => vector(64, false, 2),
        52 => vector(64, false, 3),
        53 => vector(64, false, 4),
        54 => Terminal::Sized { signed: false },
        55 => Terminal::Sized { signed: true },
        56 => Terminal::Sized { signed: true },
        57 => Terminal::Sized { signed: false },
        58 => Terminal::Struct,
        59 => Terminal::If,
        60 => Terminal::Else,
        61 => Terminal::While,
        62 => Terminal::Do,
        63 => Terminal::For,
        64 => Terminal::Switch,
        65 => Terminal::Case,
        66 => Terminal::Default,
        67 => Terminal::Break,
        68 => Terminal::Continue,
        69 => Terminal::Return,
        70 => Terminal::Sizeof,
        _ => unreachable!(),
    }
}

fn vector(bits: u8, signed: bool, n: u8) -> Terminal
    ensures { result ≡ t.Vector bits signed n }
{
    Terminal::Vector { bits, signed, n }
}
