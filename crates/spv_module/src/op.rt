//! The opcodes of the instructions that the compiler knows, under their names in SPIR-V, each with
//! its operands in order (SPIR-V 3, Instructions).

/// `OpUndef`: type, result.
pub const UNDEF: u16 = 1;
/// `OpName`: target, name.
pub const NAME: u16 = 5;
/// `OpMemberName`: struct type, member, name.
pub const MEMBER_NAME: u16 = 6;
/// `OpString`: result, text.
pub const STRING: u16 = 7;
/// `OpExtension`: name.
pub const EXTENSION: u16 = 10;
/// `OpExtInstImport`: result, name.
pub const EXT_INST_IMPORT: u16 = 11;
/// `OpExtInst`: type, result, set, number, operands.
pub const EXT_INST: u16 = 12;
/// `OpMemoryModel`: addressing model, memory model.
pub const MEMORY_MODEL: u16 = 14;
/// `OpEntryPoint`: execution model, function, name, interface.
pub const ENTRY_POINT: u16 = 15;
/// `OpExecutionMode`: entry point, mode, x, y, z.
pub const EXECUTION_MODE: u16 = 16;
/// `OpCapability`: capability.
pub const CAPABILITY: u16 = 17;
/// `OpTypeVoid`: result.
pub const TYPE_VOID: u16 = 19;
/// `OpTypeBool`: result.
pub const TYPE_BOOL: u16 = 20;
/// `OpTypeInt`: result, width in bits, 1 if signed.
pub const TYPE_INT: u16 = 21;
/// `OpTypeVector`: result, component type, count.
pub const TYPE_VECTOR: u16 = 23;
/// `OpTypeArray`: result, element type, length.
pub const TYPE_ARRAY: u16 = 28;
/// `OpTypeRuntimeArray`: result, element type.
pub const TYPE_RUNTIME_ARRAY: u16 = 29;
/// `OpTypeStruct`: result, member types.
pub const TYPE_STRUCT: u16 = 30;
/// `OpTypePointer`: result, storage class, type.
pub const TYPE_POINTER: u16 = 32;
/// `OpTypeFunction`: result, return type, parameter types.
pub const TYPE_FUNCTION: u16 = 33;
/// `OpConstantTrue`: type, result.
pub const CONSTANT_TRUE: u16 = 41;
/// `OpConstantFalse`: type, result.
pub const CONSTANT_FALSE: u16 = 42;
/// `OpConstant`: type, result, low word, high word of 64 bits.
pub const CONSTANT: u16 = 43;
/// `OpConstantComposite`: type, result, constituents.
pub const CONSTANT_COMPOSITE: u16 = 44;
/// `OpConstantNull`: type, result.
pub const CONSTANT_NULL: u16 = 46;
/// `OpSpecConstant`: type, result, default.
pub const SPEC_CONSTANT: u16 = 50;
/// `OpSpecConstantComposite`: type, result, constituents.
pub const SPEC_CONSTANT_COMPOSITE: u16 = 51;
/// `OpFunction`: return type, result, control, function type.
pub const FUNCTION: u16 = 54;
/// `OpFunctionParameter`: type, result.
pub const FUNCTION_PARAMETER: u16 = 55;
/// `OpFunctionEnd`: no operands.
pub const FUNCTION_END: u16 = 56;
/// `OpFunctionCall`: type, result, function, arguments.
pub const FUNCTION_CALL: u16 = 57;
/// `OpVariable`: pointer type, result, storage class.
pub const VARIABLE: u16 = 59;
/// `OpLoad`: type, result, pointer.
pub const LOAD: u16 = 61;
/// `OpStore`: pointer, value.
pub const STORE: u16 = 62;
/// `OpAccessChain`: pointer type, result, base, indices.
pub const ACCESS_CHAIN: u16 = 65;
/// `OpDecorate`: target, decoration, its literals.
pub const DECORATE: u16 = 71;
/// `OpMemberDecorate`: struct type, member, decoration, its literals.
pub const MEMBER_DECORATE: u16 = 72;
/// `OpVectorExtractDynamic`: type, result, vector, index.
pub const VECTOR_EXTRACT_DYNAMIC: u16 = 77;
/// `OpVectorInsertDynamic`: type, result, vector, component, index.
pub const VECTOR_INSERT_DYNAMIC: u16 = 78;
/// `OpVectorShuffle`: type, result, two vectors, components.
pub const VECTOR_SHUFFLE: u16 = 79;
/// `OpCompositeConstruct`: type, result, constituents.
pub const COMPOSITE_CONSTRUCT: u16 = 80;
/// `OpCompositeExtract`: type, result, composite, indices.
pub const COMPOSITE_EXTRACT: u16 = 81;
/// `OpCompositeInsert`: type, result, object, composite, indices.
pub const COMPOSITE_INSERT: u16 = 82;
/// `OpUConvert`: type, result, value.
pub const U_CONVERT: u16 = 113;
/// `OpSConvert`: type, result, value.
pub const S_CONVERT: u16 = 114;
/// `OpBitcast`: type, result, value.
pub const BITCAST: u16 = 124;
/// `OpSNegate`: type, result, value.
pub const S_NEGATE: u16 = 126;
/// `OpIAdd`: type, result, two values.
pub const I_ADD: u16 = 128;
/// `OpISub`: type, result, two values.
pub const I_SUB: u16 = 130;
/// `OpIMul`: type, result, two values.
pub const I_MUL: u16 = 132;
/// `OpUDiv`: type, result, two values.
pub const U_DIV: u16 = 134;
/// `OpSDiv`: type, result, two values.
pub const S_DIV: u16 = 135;
/// `OpUMod`: type, result, two values.
pub const U_MOD: u16 = 137;
/// `OpSRem`: type, result, two values.
pub const S_REM: u16 = 138;
/// `OpLogicalOr`: type, result, two values.
pub const LOGICAL_OR: u16 = 166;
/// `OpLogicalAnd`: type, result, two values.
pub const LOGICAL_AND: u16 = 167;
/// `OpLogicalNot`: type, result, value.
pub const LOGICAL_NOT: u16 = 168;
/// `OpSelect`: type, result, condition, two values.
pub const SELECT: u16 = 169;
/// `OpIEqual`: type, result, two values.
pub const I_EQUAL: u16 = 170;
/// `OpINotEqual`: type, result, two values.
pub const I_NOT_EQUAL: u16 = 171;
/// `OpUGreaterThan`: type, result, two values.
pub const U_GREATER_THAN: u16 = 172;
/// `OpSGreaterThan`: type, result, two values.
pub const S_GREATER_THAN: u16 = 173;
/// `OpUGreaterThanEqual`: type, result, two values.
pub const U_GREATER_THAN_EQUAL: u16 = 174;
/// `OpSGreaterThanEqual`: type, result, two values.
pub const S_GREATER_THAN_EQUAL: u16 = 175;
/// `OpULessThan`: type, result, two values.
pub const U_LESS_THAN: u16 = 176;
/// `OpSLessThan`: type, result, two values.
pub const S_LESS_THAN: u16 = 177;
/// `OpULessThanEqual`: type, result, two values.
pub const U_LESS_THAN_EQUAL: u16 = 178;
/// `OpSLessThanEqual`: type, result, two values.
pub const S_LESS_THAN_EQUAL: u16 = 179;
/// `OpShiftRightLogical`: type, result, base, shift.
pub const SHIFT_RIGHT_LOGICAL: u16 = 194;
/// `OpShiftRightArithmetic`: type, result, base, shift.
pub const SHIFT_RIGHT_ARITHMETIC: u16 = 195;
/// `OpShiftLeftLogical`: type, result, base, shift.
pub const SHIFT_LEFT_LOGICAL: u16 = 196;
/// `OpBitwiseOr`: type, result, two values.
pub const BITWISE_OR: u16 = 197;
/// `OpBitwiseXor`: type, result, two values.
pub const BITWISE_XOR: u16 = 198;
/// `OpBitwiseAnd`: type, result, two values.
pub const BITWISE_AND: u16 = 199;
/// `OpNot`: type, result, value.
pub const NOT: u16 = 200;
/// `OpControlBarrier`: execution scope, memory scope, semantics.
pub const CONTROL_BARRIER: u16 = 224;
/// `OpMemoryBarrier`: memory scope, semantics.
pub const MEMORY_BARRIER: u16 = 225;
/// `OpAtomicExchange`: type, result, pointer, scope, semantics, value.
pub const ATOMIC_EXCHANGE: u16 = 229;
/// `OpAtomicCompareExchange`: type, result, pointer, scope, semantics if equal, if unequal, value, comparator.
pub const ATOMIC_COMPARE_EXCHANGE: u16 = 230;
/// `OpAtomicIIncrement`: type, result, pointer, scope, semantics.
pub const ATOMIC_I_INCREMENT: u16 = 232;
/// `OpAtomicIDecrement`: type, result, pointer, scope, semantics.
pub const ATOMIC_I_DECREMENT: u16 = 233;
/// `OpAtomicIAdd`: type, result, pointer, scope, semantics, value.
pub const ATOMIC_I_ADD: u16 = 234;
/// `OpAtomicISub`: type, result, pointer, scope, semantics, value.
pub const ATOMIC_I_SUB: u16 = 235;
/// `OpAtomicSMin`: type, result, pointer, scope, semantics, value.
pub const ATOMIC_S_MIN: u16 = 236;
/// `OpAtomicUMin`: type, result, pointer, scope, semantics, value.
pub const ATOMIC_U_MIN: u16 = 237;
/// `OpAtomicSMax`: type, result, pointer, scope, semantics, value.
pub const ATOMIC_S_MAX: u16 = 238;
/// `OpAtomicUMax`: type, result, pointer, scope, semantics, value.
pub const ATOMIC_U_MAX: u16 = 239;
/// `OpAtomicAnd`: type, result, pointer, scope, semantics, value.
pub const ATOMIC_AND: u16 = 240;
/// `OpAtomicOr`: type, result, pointer, scope, semantics, value.
pub const ATOMIC_OR: u16 = 241;
/// `OpAtomicXor`: type, result, pointer, scope, semantics, value.
pub const ATOMIC_XOR: u16 = 242;
/// `OpLoopMerge`: merge block, continue target, control.
pub const LOOP_MERGE: u16 = 246;
/// `OpSelectionMerge`: merge block, control.
pub const SELECTION_MERGE: u16 = 247;
/// `OpLabel`: result.
pub const LABEL: u16 = 248;
/// `OpBranch`: target.
pub const BRANCH: u16 = 249;
/// `OpBranchConditional`: condition, target if true, target if false.
pub const BRANCH_CONDITIONAL: u16 = 250;
/// `OpSwitch`: selector, default, pairs of a literal and a target.
pub const SWITCH: u16 = 251;
/// `OpReturn`: no operands.
pub const RETURN: u16 = 253;
/// `OpReturnValue`: value.
pub const RETURN_VALUE: u16 = 254;
/// `OpUnreachable`: no operands.
pub const UNREACHABLE: u16 = 255;
