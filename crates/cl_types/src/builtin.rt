//! Built-in functions (OpenCL C 1.2, 6.12).

/// A built-in function by its name, with what its value needs that the types of its arguments don't tell.
#[derive(Clone, Copy, PartialEq, Eq, Debug)]
pub enum Builtin {
    GetWorkDim,
    GetGlobalSize,
    GetGlobalId,
    GetLocalSize,
    GetLocalId,
    GetNumGroups,
    GetGroupId,
    GetGlobalOffset,
    Abs,
    AbsDiff,
    AddSat,
    SubSat,
    MadSat,
    Hadd,
    Rhadd,
    Min,
    Max,
    Clamp,
    Clz,
    Popcount,
    MulHi,
    MadHi,
    Mul24,
    Mad24,
    Rotate,
    Upsample,
    /// `convert_R` and `convert_R_sat`, by the components of R.
    Convert { bits: u8, signed: bool, sat: bool },
    /// `as_R`.
    As,
    /// `select`, on scalars or on vectors.
    Select { vector: bool },
    Any,
    All,
    /// `vloadN`, by N.
    Vload(u8),
    /// `vstoreN`, by N.
    Vstore(u8),
    Barrier,
    MemFence,
    ReadMemFence,
    WriteMemFence,
    AtomicAdd,
    AtomicSub,
    AtomicXchg,
    AtomicMin,
    AtomicMax,
    AtomicAnd,
    AtomicOr,
    AtomicXor,
    AtomicInc,
    AtomicDec,
    AtomicCmpxchg,
}
