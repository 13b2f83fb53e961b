//! Launches, and what one work-item can see of them.

use clv_place::{List, Text};

/// A launch of a kernel over a grid of work-items, as a launch text gives it.
#[derive(Drop)]
pub struct Launch {
    /// The kernel's name.
    pub kernel: Text,
    /// The work dimension, from 1 to 3.
    pub dims: u8,
    /// The grid's sizes in work-items along x, y and z. A size that the text does not give is 1.
    pub global: [u32; 3],
    /// The sizes of a work-group in work-items, likewise.
    pub local: [u32; 3],
    /// The names of the buffers' files, each once, in the order of first mention.
    pub files: List<Text>,
    /// What the arguments are given, in the order of the lines.
    pub args: List<ArgLine>,
    /// The order in which work-items take their turns.
    pub schedule: Schedule,
    /// The most steps that the run may take.
    pub steps: u64,
}

/// What one argument is given. Ordinals count from 0.
#[derive(Drop)]
pub struct ArgLine {
    pub ordinal: u32,
    pub kind: ArgKind,
}

/// A buffer in a file, by its index in the launch's `files`; bytes of local memory, of which there is at
/// least one; or the bytes of a plain value.
#[derive(Drop)]
pub enum ArgKind {
    Buffer { file: u32 },
    Local { bytes: u32 },
    Plain { bytes: Text },
}

/// The order in which work-items take their turns: turns of so many steps each, of which there is at
/// least one; or turns of as many steps as the numbers say that follow a seed.
#[derive(Clone, Copy, PartialEq, Eq, Debug)]
pub enum Schedule {
    Robin(u32),
    Mixed(u64),
}

/// Why a launch text gives no launch: it breaks a rule, by its number, at a line from 1; or want of memory.
///
/// 1. A byte other than printable ASCII, tab, LF, or a CR at the end of a line; or over 64 KiB.
/// 2. An unknown first word.
/// 3. Other words than that line has.
/// 4. A number that is not decimal digits, or is too large.
/// 5. Hex that is not an even number of hexadecimal digits, in either case.
/// 6. A zero for a size, a turn, the steps or the bytes of local memory.
/// 7. The line, or the argument, is given already.
/// 8. The kernel, the global or the local sizes are missing, at one line past the last.
/// 9. There are not as many local sizes as global ones, at the line of the local ones.
#[derive(Clone, Copy, PartialEq, Eq, Debug)]
pub enum LaunchStop {
    Fault { number: u8, line: u32 },
    NoMemory,
}

/// What one work-item can see of a launch.
#[derive(Drop)]
pub struct LaunchSizes {
    pub kernel: Text,
    pub dims: u8,
    pub global: [u32; 3],
    pub local: [u32; 3],
    /// The arguments, by their ordinals.
    pub args: List<ArgSize>,
}

/// What one work-item can see of an argument: a buffer by its file's index, and its bytes; bytes of local
/// memory; or the bytes of a plain value.
#[derive(Drop)]
pub enum ArgSize {
    Buffer { file: u32, bytes: u32 },
    Local { bytes: u32 },
    Plain { bytes: Text },
}
