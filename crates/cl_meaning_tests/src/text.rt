//! Texts with launches of their kernels, as tables give them.

use cl_lexer::lex;
use cl_parse::parse;
use cl_pre::expand;
use cl_tree::{Answer, Tree};
use cl_typing::type_unit;
use clv_place::{List, NoMemory, Stop, Text};
use launch_text::{ArgSize, LaunchSizes};
use std::alloc::Global;

/// The tree of a text, or its first offence.
pub(crate) fn tree_of(alloc: Global, text: &str) -> Result<Tree, Stop> {
    let tokens = lex(alloc, text.as_bytes())?;
    let expanded = expand(alloc, &tokens)?;
    let ast = parse(alloc, &expanded)?;
    type_unit(alloc, &ast)
}

/// What kernels are given: numbers in parts, each part behind its letter. Behind `g` and `l` stand the global and the
/// local sizes; behind `b`, `h`, `w` and `q` a buffer's numbers of 1, 2, 4 and 8 bytes, and behind the capital letters
/// those of a plain argument; behind `m` the bytes of a local argument; and behind `f` the number of a buffer that is
/// given once more. `7*3` is 7 three times.
#[derive(Drop)]
pub(crate) struct Given {
    global: [u32; 3],
    local: [u32; 3],
    dims: u8,
    args: List<ArgSize>,
    pub(crate) buffers: Vec<Vec<u8>>,
}

// One part: its letter and its numbers.
#[derive(Drop)]
struct Part {
    letter: u8,
    numbers: Vec<u64>,
}

// The number that is being read.
#[derive(Clone, Copy)]
struct Digits {
    number: u64,
    minus: bool,
    any: bool,
    repeated: Option<u64>,
}

const NO_DIGITS: Digits = Digits {
    number: 0,
    minus: false,
    any: false,
    repeated: None,
};

fn signed(digits: Digits) -> u64 {
    if digits.minus {
        digits.number.wrapping_neg()
    } else {
        digits.number
    }
}

fn end_number(numbers: &mut Vec<u64>, digits: Digits) -> Result<(), NoMemory> {
    if !digits.any {
        return Ok(());
    }
    let (number, times) = match digits.repeated {
        Some(number) => (number, digits.number),
        None => (signed(digits), 1),
    };
    for _time in 0..times {
        numbers.push(number)?;
    }
    Ok(())
}

fn with_digit(digits: Digits, byte: u8) -> Digits {
    let digit = byte.wrapping_sub(b'0') as u64;
    Digits {
        number: digits.number.wrapping_mul(10).wrapping_add(digit),
        any: true,
        ..digits
    }
}

impl Part {
    fn new(alloc: Global, letter: u8) -> Part {
        Part {
            letter,
            numbers: Vec::new(alloc),
        }
    }
}

// The parts of a description; the first, which has no letter, is empty.
fn parts_of(alloc: Global, text: &str) -> Result<Vec<Part>, NoMemory> {
    let mut parts = Vec::new(alloc);
    let mut part = Part::new(alloc, b' ');
    let mut digits = NO_DIGITS;
    for byte in text.as_bytes() {
        match *byte {
            b'0'..=b'9' => digits = with_digit(digits, *byte),
            b'-' => digits.minus = true,
            b'*' => {
                digits = Digits {
                    repeated: Some(signed(digits)),
                    ..NO_DIGITS
                }
            }
            b' ' => {
                end_number(&mut part.numbers, digits)?;
                digits = NO_DIGITS;
            }
            letter => {
                parts.push(part)?;
                part = Part::new(alloc, letter);
            }
        }
    }
    end_number(&mut part.numbers, digits)?;
    parts.push(part)?;
    Ok(parts)
}

fn width_of(letter: u8) -> usize {
    match letter {
        b'b' | b'B' => 1,
        b'h' | b'H' => 2,
        b'w' | b'W' => 4,
        _ => 8,
    }
}

fn push_bytes(bytes: &mut Vec<u8>, number: u64, width: usize) -> Result<(), NoMemory> {
    for byte in number.to_le_bytes().iter().take(width) {
        bytes.push(*byte)?;
    }
    Ok(())
}

fn bytes_of(alloc: Global, part: &Part) -> Result<Vec<u8>, NoMemory> {
    let mut bytes = Vec::new(alloc);
    for number in part.numbers.as_slice() {
        push_bytes(&mut bytes, *number, width_of(part.letter))?;
    }
    Ok(bytes)
}

fn size_of(number: u64) -> u32 {
    u32::try_from(number).unwrap_or(0)
}

fn first_of(part: &Part) -> u32 {
    match part.numbers.first() {
        Some(number) => size_of(*number),
        None => 0,
    }
}

fn sizes_of(part: &Part) -> [u32; 3] {
    let mut sizes = [1u32, 1, 1];
    for (k, size) in sizes.iter_mut().enumerate() {
        if let Some(number) = part.numbers.get(k) {
            *size = size_of(*number);
        }
    }
    sizes
}

impl Given {
    fn buffer_bytes(&self, file: u32) -> u32 {
        match self.buffers.get(file as usize) {
            Some(bytes) => size_of(bytes.len() as u64),
            None => 0,
        }
    }

    fn push_buffer(&mut self, bytes: Vec<u8>) -> Result<(), NoMemory> {
        let file = size_of(self.buffers.len() as u64);
        self.args.push(ArgSize::Buffer {
            file,
            bytes: size_of(bytes.len() as u64),
        })?;
        self.buffers.push(bytes)?;
        Ok(())
    }

    fn push_again(&mut self, file: u32) -> Result<(), NoMemory> {
        let bytes = self.buffer_bytes(file);
        self.args.push(ArgSize::Buffer { file, bytes })
    }

    fn add(&mut self, alloc: Global, part: &Part) -> Result<(), NoMemory> {
        match part.letter {
            b'g' => {
                self.global = sizes_of(part);
                self.dims = u8::try_from(part.numbers.len()).unwrap_or(0);
                Ok(())
            }
            b'l' => {
                self.local = sizes_of(part);
                Ok(())
            }
            b'm' => self.args.push(ArgSize::Local {
                bytes: first_of(part),
            }),
            b'f' => self.push_again(first_of(part)),
            b'b' | b'h' | b'w' | b'q' => self.push_buffer(bytes_of(alloc, part)?),
            b'B' | b'H' | b'W' | b'Q' => self.args.push(ArgSize::Plain {
                bytes: Text::from_vec(bytes_of(alloc, part)?),
            }),
            _ => Ok(()),
        }
    }

    /// What a kernel is given by a description.
    pub(crate) fn read(alloc: Global, text: &str) -> Result<Given, NoMemory> {
        let mut given = Given {
            global: [1, 1, 1],
            local: [1, 1, 1],
            dims: 1,
            args: List::new(alloc),
            buffers: Vec::new(alloc),
        };
        let parts = parts_of(alloc, text)?;
        for part in parts.as_slice() {
            given.add(alloc, part)?;
        }
        Ok(given)
    }

    /// The launch of a tree's first kernel, and the buffers.
    pub(crate) fn launch(
        self,
        alloc: Global,
        tree: &Tree,
    ) -> Result<(LaunchSizes, Vec<Vec<u8>>), NoMemory> {
        let launch = LaunchSizes {
            kernel: kernel_name(alloc, tree)?,
            dims: self.dims,
            global: self.global,
            local: self.local,
            args: self.args,
        };
        Ok((launch, self.buffers))
    }
}

/// Answers, as the numbers behind a letter.
pub(crate) fn answers_of(alloc: Global, text: &str) -> Result<List<Answer>, NoMemory> {
    let mut answers = List::new(alloc);
    let parts = parts_of(alloc, text)?;
    if let Some(part) = parts.last() {
        for value in part.numbers.as_slice() {
            answers.push(Answer { value: *value })?;
        }
    }
    Ok(answers)
}

fn kernel_name(alloc: Global, tree: &Tree) -> Result<Text, NoMemory> {
    for function in tree.functions.as_slice() {
        if function.kernel {
            return Text::from_bytes(alloc, function.name.as_slice());
        }
    }
    Ok(Text::new(alloc))
}
