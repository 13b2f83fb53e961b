//! The ids of the module of a kernel. Only the terms of its sum have ids beyond.

pub const REFLECTION: u32 = 1;

pub const MAIN: u32 = 2;

pub const GLOBAL_ID: u32 = 3;

pub const KERNEL_NAME: u32 = 4;

pub const ARGUMENT_NAME: u32 = 5;

pub const VOID: u32 = 6;

pub const MAIN_TYPE: u32 = 7;

pub const UINT: u32 = 8;

pub const UINT3: u32 = 9;

pub const ELEMENTS: u32 = 10;

pub const BLOCK: u32 = 11;

pub const BLOCK_POINTER: u32 = 12;

pub const UINT_POINTER: u32 = 13;

pub const INPUT_POINTER: u32 = 14;

pub const SIZE_X: u32 = 15;

pub const SIZE_Y: u32 = 16;

pub const SIZE_Z: u32 = 17;

pub const GROUP_SIZE: u32 = 18;

pub const ZERO: u32 = 19;

pub const ONE: u32 = 20;

pub const TWO: u32 = 21;

pub const BUFFER: u32 = 22;

pub const ENTRY: u32 = 23;
/// The loaded global id of the place that is written, and one more for its first component.
pub const PLACE: u32 = 24;

pub const ELEMENT: u32 = 26;

pub const KERNEL_LINE: u32 = 27;

pub const NAME_LINE: u32 = 28;

pub const BUFFER_LINE: u32 = 29;

pub const SIZES_LINE: u32 = 30;
/// The first of the three ids of the first term.
pub const TERMS: u32 = 31;
