//! The numbers of SPIR-V that stand in words, under their names there (SPIR-V 3): enumerants of
//! operands, and the scopes and memory semantics that are the values of constants.

/// What a module declares that it uses (SPIR-V 3.31).
pub mod capability {
    /// Compute pipelines, and graphics.
    pub const SHADER: u32 = 1;
    /// Integers of 64 bits.
    pub const INT64: u32 = 11;
    /// Integers of 16 bits.
    pub const INT16: u32 = 22;
    /// Integers of 8 bits.
    pub const INT8: u32 = 39;
    /// Values of 16 bits in storage buffers.
    pub const STORAGE_BUFFER16_BIT_ACCESS: u32 = 4433;
    /// Values of 16 bits in push constants.
    pub const STORAGE_PUSH_CONSTANT16: u32 = 4435;
    /// Values of 8 bits in storage buffers.
    pub const STORAGE_BUFFER8_BIT_ACCESS: u32 = 4448;
    /// Values of 8 bits in push constants.
    pub const STORAGE_PUSH_CONSTANT8: u32 = 4450;
}

/// Where a variable lies (SPIR-V 3.7).
pub mod storage_class {
    /// What the pipeline gives each invocation, as its ids.
    pub const INPUT: u32 = 1;
    /// What the invocations of a workgroup share.
    pub const WORKGROUP: u32 = 4;
    /// What one call of a function has.
    pub const FUNCTION: u32 = 7;
    /// A small block that a command gives with the dispatch.
    pub const PUSH_CONSTANT: u32 = 9;
    /// A buffer that all invocations share.
    pub const STORAGE_BUFFER: u32 = 12;
}

/// What is said of an id or of a member (SPIR-V 3.20).
pub mod decoration {
    /// The number under which a constant is specialised. One literal: that number.
    pub const SPEC_ID: u32 = 1;
    /// A struct that a buffer or the push constants have.
    pub const BLOCK: u32 = 2;
    /// One literal: the bytes from an element to the next.
    pub const ARRAY_STRIDE: u32 = 6;
    /// One literal: which built-in it is.
    pub const BUILT_IN: u32 = 11;
    /// No other pointer reaches the memory.
    pub const RESTRICT: u32 = 19;
    /// Other pointers may reach the memory.
    pub const ALIASED: u32 = 20;
    /// It isn't written through this.
    pub const NON_WRITABLE: u32 = 24;
    /// One literal: the number of the binding in its set.
    pub const BINDING: u32 = 33;
    /// One literal: the number of the descriptor set.
    pub const DESCRIPTOR_SET: u32 = 34;
    /// One literal: the byte in the struct at which the member begins.
    pub const OFFSET: u32 = 35;
}

/// What the pipeline gives each invocation (SPIR-V 3.21). Each is three numbers.
pub mod built_in {
    /// How many workgroups there are.
    pub const NUM_WORKGROUPS: u32 = 24;
    /// How many invocations a workgroup has.
    pub const WORKGROUP_SIZE: u32 = 25;
    /// Which workgroup it is.
    pub const WORKGROUP_ID: u32 = 26;
    /// Which invocation of the workgroup it is.
    pub const LOCAL_INVOCATION_ID: u32 = 27;
    /// Which invocation of all it is.
    pub const GLOBAL_INVOCATION_ID: u32 = 28;
}

/// What an entry point is for (SPIR-V 3.3).
pub mod execution_model {
    /// A compute pipeline.
    pub const GL_COMPUTE: u32 = 5;
}

/// What is said of an entry point (SPIR-V 3.6).
pub mod execution_mode {
    /// Three literals: the invocations of a workgroup, in each dimension.
    pub const LOCAL_SIZE: u32 = 17;
}

/// What pointers are (SPIR-V 3.4).
pub mod addressing_model {
    /// No numbers.
    pub const LOGICAL: u32 = 0;
}

/// How memory behaves (SPIR-V 3.5).
pub mod memory_model {
    /// As GLSL 4.50 has it.
    pub const GLSL450: u32 = 1;
}

/// Function, loop and selection controls (SPIR-V 3.22 to 3.24).
pub mod control {
    /// No hint: the compiler gives none.
    pub const NONE: u32 = 0;
}

/// Whom an atomic or a barrier concerns (SPIR-V 3.27).
pub mod scope {
    /// All invocations on the device.
    pub const DEVICE: u32 = 1;
    /// The invocations of the workgroup.
    pub const WORKGROUP: u32 = 2;
}

/// How an atomic or a barrier orders memory, as bits (SPIR-V 3.25).
pub mod memory_semantics {
    /// Not at all: relaxed.
    pub const NONE: u32 = 0;
    /// What is before stays before, and what is after stays after.
    pub const ACQUIRE_RELEASE: u32 = 0x8;
    /// It concerns storage buffers.
    pub const UNIFORM_MEMORY: u32 = 0x40;
    /// It concerns the memory of the workgroup.
    pub const WORKGROUP_MEMORY: u32 = 0x100;
}
