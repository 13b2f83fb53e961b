//! The room where a kernel becomes a module. The instructions stand in the order of SPIR-V's layout
//! (SPIR-V 2.4), and each method of [`Body`] appends one group of them.

ghost use Rattle.clv_engine.specs.Emitted.{
  buffer_decorations,
  constants_from,
  function_begin,
  function_end,
  global_id,
  globals,
  head,
  inst,
  module_of,
  plain_types,
  pointer_types,
  preamble,
  reflection,
  size_decorations,
  sizes,
  strings,
  sum as sum_id,
  sum_from,
  sums_from,
  term as term_code,
  terms as terms_code,
  type_decorations,
  value as value_id,
};
ghost use Rattle.clv_engine.specs.declared.id.TheConstants as id;
ghost use Rattle.spv_module.specs.declared.enumerant.execution_model.TheConstants as execution_model;
ghost use Rattle.spv_module.specs.declared.module.Operand.TheVariants.{Id, Word, Str};
ghost use Rattle.spv_module.specs.declared.op.TheConstants as op;
ghost use Rattle.std.specs.Prelude.{IfOk, OnOk, [], ◌++◌, ◌+◌, ◌*◌, ◌<◌, ◌≤◌, ◌^◌, ◌≡◌, ◌∷◌, length, map};

use crate::form::{Kernel, Term};
use crate::id;
use clv_place::{List, NoMemory, Text};
use spv_module::Operand::{Id, Str, Word};
use spv_module::enumerant::{
    addressing_model, built_in, capability, control, decoration, execution_model, memory_model,
    storage_class,
};
use spv_module::module::VERSION;
use spv_module::{Inst, Module, Operand, op};
use std::alloc::Global;
use std::marker::Model;

/// The numbers of the reflection lines (NonSemantic.ClspvReflection.1).
mod reflection_line {
    /// `Kernel`: function, name.
    pub const KERNEL: u32 = 1;
    /// `ArgumentInfo`: name.
    pub const ARGUMENT_INFO: u32 = 2;
    /// `ArgumentStorageBuffer`: kernel, ordinal, descriptor set, binding, argument info.
    pub const ARGUMENT_STORAGE_BUFFER: u32 = 3;
    /// `SpecConstantWorkgroupSize`: the SpecIds of the three sizes.
    pub const SPEC_CONSTANT_WORKGROUP_SIZE: u32 = 12;
}

/// The module of a kernel: one entry point under the kernel's name, the buffer at set 0 and binding
/// 0, and the reflection lines. Fails for want of memory alone.
pub fn emit(alloc: Global, kernel: &Kernel) -> Result<Module, NoMemory>
    requires { length kernel.now.terms ≤ 100 }
    ensures { IfOk result (λ m. m ≡ module_of kernel.now) }
{
    let mut body = Body::new(alloc);
    let terms = kernel.terms.as_slice();
    body.head(kernel)?;
    body.constants(terms)?;
    body.function(terms)?;
    body.reflection()?;
    Ok(Module {
        version: VERSION,
        generator: 0,
        bound: id::TERMS + 3 * terms.len() as u32,
        body: body.insts,
    })
}

/// The instructions so far, and where they get their memory.
#[derive(Drop)]
struct Body {
    alloc: Global,
    insts: List<Inst>,
}

impl Model for Body {
    ghost use Rattle.std.specs.Prelude.{List};
    ghost use Rattle.spv_module.specs.declared.module.Inst.{Inst};

    ghost Value = { List Inst };

    ghost view = { λ b. b.insts };
}

impl Body {
    fn new(alloc: Global) -> Self
        ensures { result ≡ [] }
    {
        Body {
            alloc,
            insts: List::new(alloc),
        }
    }

    fn push<const N: usize>(&mut self, op: u16, operands: [Operand; N]) -> Result<(), NoMemory>
        ensures { OnOk result (self.new ≡ self.old ++ inst op operands.entry ∷ []) }
    {
        let operands = List::from_vec(Vec::from_array(self.alloc, operands)?);
        self.insts.push(Inst { op, operands })
    }

    /// The operand that a string is.
    fn string(&self, bytes: &[u8]) -> Result<Operand, NoMemory>
        ensures { IfOk result (λ o. o ≡ Str bytes.now) }
    {
        Ok(Str(Text::from_bytes(self.alloc, bytes)?))
    }

    fn head(&mut self, kernel: &Kernel) -> Result<(), NoMemory>
        ensures { OnOk result (self.new ≡ self.old ++ head kernel.now) }
    {
        self.preamble(kernel)?;
        self.strings(kernel)?;
        self.type_decorations()?;
        self.buffer_decorations()?;
        self.size_decorations()?;
        self.plain_types()?;
        self.pointer_types()?;
        self.sizes()?;
        self.globals()
    }

    fn preamble(&mut self, kernel: &Kernel) -> Result<(), NoMemory>
        ensures { OnOk result (self.new ≡ self.old ++ preamble kernel.now) }
    {
        self.push(op::CAPABILITY, [Word(capability::SHADER)])?;
        self.extension(b"SPV_KHR_non_semantic_info")?;
        self.import(id::REFLECTION, b"NonSemantic.ClspvReflection.1")?;
        self.push(
            op::MEMORY_MODEL,
            [Word(addressing_model::LOGICAL), Word(memory_model::GLSL450)],
        )?;
        self.entry_point(kernel.name)
    }

    fn extension(&mut self, name: &[u8]) -> Result<(), NoMemory>
        ensures { OnOk result (self.new ≡ self.old ++ inst op.EXTENSION (Str name.now ∷ []) ∷ []) }
    {
        let name = self.string(name)?;
        self.push(op::EXTENSION, [name])
    }

    /// A set of further instructions.
    fn import(&mut self, set: u32, name: &[u8]) -> Result<(), NoMemory>
        ensures { OnOk result (self.new ≡ self.old ++ inst op.EXT_INST_IMPORT (Id set ∷ Str name.now ∷ []) ∷ []) }
    {
        let name = self.string(name)?;
        self.push(op::EXT_INST_IMPORT, [Id(set), name])
    }

    /// The function as an entry point under the kernel's name.
    fn entry_point(&mut self, name: u8) -> Result<(), NoMemory>
        ensures { OnOk result (self.new ≡ self.old ++ inst op.ENTRY_POINT (Word execution_model.GL_COMPUTE ∷ Id id.MAIN ∷ Str (name ∷ []) ∷ Id id.GLOBAL_ID ∷ []) ∷ []) }
    {
        let name = self.string(&[name])?;
        self.push(
            op::ENTRY_POINT,
            [
                Word(execution_model::GL_COMPUTE),
                Id(id::MAIN),
                name,
                Id(id::GLOBAL_ID),
            ],
        )
    }

    fn strings(&mut self, kernel: &Kernel) -> Result<(), NoMemory>
        ensures { OnOk result (self.new ≡ self.old ++ strings kernel.now) }
    {
        let name = self.string(&[kernel.name])?;
        let argument = self.string(&[kernel.argument])?;
        self.push(op::STRING, [Id(id::KERNEL_NAME), name])?;
        self.push(op::STRING, [Id(id::ARGUMENT_NAME), argument])
    }

    fn type_decorations(&mut self) -> Result<(), NoMemory>
        ensures { OnOk result (self.new ≡ self.old ++ type_decorations) }
    {
        self.decorate(
            id::GLOBAL_ID,
            decoration::BUILT_IN,
            built_in::GLOBAL_INVOCATION_ID,
        )?;
        self.decorate(id::ELEMENTS, decoration::ARRAY_STRIDE, 4)?;
        self.push(
            op::MEMBER_DECORATE,
            [Id(id::BLOCK), Word(0), Word(decoration::OFFSET), Word(0)],
        )?;
        self.push(op::DECORATE, [Id(id::BLOCK), Word(decoration::BLOCK)])
    }

    fn buffer_decorations(&mut self) -> Result<(), NoMemory>
        ensures { OnOk result (self.new ≡ self.old ++ buffer_decorations) }
    {
        self.decorate(id::BUFFER, decoration::DESCRIPTOR_SET, 0)?;
        self.decorate(id::BUFFER, decoration::BINDING, 0)?;
        self.push(op::DECORATE, [Id(id::BUFFER), Word(decoration::ALIASED)])
    }

    fn size_decorations(&mut self) -> Result<(), NoMemory>
        ensures { OnOk result (self.new ≡ self.old ++ size_decorations) }
    {
        self.decorate(id::SIZE_X, decoration::SPEC_ID, 0)?;
        self.decorate(id::SIZE_Y, decoration::SPEC_ID, 1)?;
        self.decorate(id::SIZE_Z, decoration::SPEC_ID, 2)?;
        self.decorate(
            id::GROUP_SIZE,
            decoration::BUILT_IN,
            built_in::WORKGROUP_SIZE,
        )
    }

    /// A decoration with its one number.
    fn decorate(&mut self, target: u32, kind: u32, number: u32) -> Result<(), NoMemory>
        ensures { OnOk result (self.new ≡ self.old ++ inst op.DECORATE (Id target ∷ Word kind ∷ Word number ∷ []) ∷ []) }
    {
        self.push(op::DECORATE, [Id(target), Word(kind), Word(number)])
    }

    fn plain_types(&mut self) -> Result<(), NoMemory>
        ensures { OnOk result (self.new ≡ self.old ++ plain_types) }
    {
        self.push(op::TYPE_VOID, [Id(id::VOID)])?;
        self.push(op::TYPE_FUNCTION, [Id(id::MAIN_TYPE), Id(id::VOID)])?;
        self.push(op::TYPE_INT, [Id(id::UINT), Word(32), Word(0)])?;
        self.push(op::TYPE_VECTOR, [Id(id::UINT3), Id(id::UINT), Word(3)])?;
        self.push(op::TYPE_RUNTIME_ARRAY, [Id(id::ELEMENTS), Id(id::UINT)])
    }

    fn pointer_types(&mut self) -> Result<(), NoMemory>
        ensures { OnOk result (self.new ≡ self.old ++ pointer_types) }
    {
        self.push(op::TYPE_STRUCT, [Id(id::BLOCK), Id(id::ELEMENTS)])?;
        self.pointer_type(id::BLOCK_POINTER, storage_class::STORAGE_BUFFER, id::BLOCK)?;
        self.pointer_type(id::UINT_POINTER, storage_class::STORAGE_BUFFER, id::UINT)?;
        self.pointer_type(id::INPUT_POINTER, storage_class::INPUT, id::UINT3)
    }

    fn pointer_type(&mut self, result_id: u32, class: u32, pointee: u32) -> Result<(), NoMemory>
        ensures { OnOk result (self.new ≡ self.old ++ inst op.TYPE_POINTER (Id result_id ∷ Word class ∷ Id pointee ∷ []) ∷ []) }
    {
        self.push(op::TYPE_POINTER, [Id(result_id), Word(class), Id(pointee)])
    }

    fn sizes(&mut self) -> Result<(), NoMemory>
        ensures { OnOk result (self.new ≡ self.old ++ sizes) }
    {
        self.push(op::SPEC_CONSTANT, [Id(id::UINT), Id(id::SIZE_X), Word(1)])?;
        self.push(op::SPEC_CONSTANT, [Id(id::UINT), Id(id::SIZE_Y), Word(1)])?;
        self.push(op::SPEC_CONSTANT, [Id(id::UINT), Id(id::SIZE_Z), Word(1)])?;
        self.push(
            op::SPEC_CONSTANT_COMPOSITE,
            [
                Id(id::UINT3),
                Id(id::GROUP_SIZE),
                Id(id::SIZE_X),
                Id(id::SIZE_Y),
                Id(id::SIZE_Z),
            ],
        )
    }

    fn globals(&mut self) -> Result<(), NoMemory>
        ensures { OnOk result (self.new ≡ self.old ++ globals) }
    {
        self.constant(id::ZERO, 0)?;
        self.constant(id::ONE, 1)?;
        self.constant(id::TWO, 2)?;
        self.push(
            op::VARIABLE,
            [
                Id(id::INPUT_POINTER),
                Id(id::GLOBAL_ID),
                Word(storage_class::INPUT),
            ],
        )?;
        self.push(
            op::VARIABLE,
            [
                Id(id::BLOCK_POINTER),
                Id(id::BUFFER),
                Word(storage_class::STORAGE_BUFFER),
            ],
        )
    }

    fn constant(&mut self, result_id: u32, number: u32) -> Result<(), NoMemory>
        ensures { OnOk result (self.new ≡ self.old ++ inst op.CONSTANT (Id id.UINT ∷ Id result_id ∷ Word number ∷ []) ∷ []) }
    {
        self.push(op::CONSTANT, [Id(id::UINT), Id(result_id), Word(number)])
    }

    /// The constants of the literals.
    fn constants(&mut self, terms: &[Term]) -> Result<(), NoMemory>
        requires { length terms.now ≤ 100 }
        ensures { OnOk result (self.new ≡ self.old ++ constants_from id.TERMS terms.now) }
    {
        let mut next = id::TERMS;
        for term in terms {
            if let Term::Literal(number) = *term {
                self.constant(next, number)?;
            }
            next += 3;
        }
        Ok(())
    }

    fn function(&mut self, terms: &[Term]) -> Result<(), NoMemory>
        requires { length terms.now ≤ 100 }
        ensures { OnOk result (self.new ≡ self.old ++ (function_begin ++ (global_id id.PLACE ++ (terms_code terms.now ++ function_end (sum_id terms.now))))) }
    {
        self.function_begin()?;
        self.global_id(id::PLACE)?;
        let sum = self.terms(terms)?;
        self.function_end(sum)
    }

    fn function_begin(&mut self) -> Result<(), NoMemory>
        ensures { OnOk result (self.new ≡ self.old ++ function_begin) }
    {
        self.push(
            op::FUNCTION,
            [
                Id(id::VOID),
                Id(id::MAIN),
                Word(control::NONE),
                Id(id::MAIN_TYPE),
            ],
        )?;
        self.push(op::LABEL, [Id(id::ENTRY)])
    }

    /// The global id, loaded as `vector`, and its first component, the id after it.
    fn global_id(&mut self, vector: u32) -> Result<(), NoMemory>
        requires { vector + 1 < 2 ^ 32 }
        ensures { OnOk result (self.new ≡ self.old ++ global_id vector) }
    {
        self.push(op::LOAD, [Id(id::UINT3), Id(vector), Id(id::GLOBAL_ID)])?;
        self.push(
            op::COMPOSITE_EXTRACT,
            [Id(id::UINT), Id(vector + 1), Id(vector), Word(0)],
        )
    }

    /// The code of a term, and the id of its value.
    fn term(&mut self, next: u32, term: Term) -> Result<u32, NoMemory>
        requires { next + 1 < 2 ^ 32 }
        ensures code { OnOk result (self.new ≡ self.old ++ term_code next term) }
        ensures value { IfOk result (λ r. r ≡ value_id next term) }
    {
        match term {
            Term::GlobalId => {
                self.global_id(next)?;
                Ok(next + 1)
            }
            Term::Literal(_) => Ok(next),
        }
    }

    /// The code of the sum, and its id.
    fn terms(&mut self, terms: &[Term]) -> Result<u32, NoMemory>
        requires { length terms.now ≤ 100 }
        ensures code { OnOk result (self.new ≡ self.old ++ terms_code terms.now) }
        ensures sum { IfOk result (λ r. r ≡ sum_id terms.now) }
    {
        match terms {
            [] => Ok(id::ZERO),
            [first, rest @ ..] => {
                let value = self.term(id::TERMS, *first)?;
                self.sums(id::TERMS + 3, value, rest)
            }
        }
    }

    /// The sum so far with each further term, and the id of the last sum.
    fn sums(&mut self, first: u32, start: u32, terms: &[Term]) -> Result<u32, NoMemory>
        requires { first + 3 * length terms.now < 2 ^ 32 }
        ensures code { OnOk result (self.new ≡ self.old ++ sums_from first start terms.now) }
        ensures sum { IfOk result (λ r. r ≡ sum_from first start terms.now) }
    {
        let mut next = first;
        let mut sum = start;
        for term in terms {
            let value = self.term(next, *term)?;
            self.push(op::I_ADD, [Id(id::UINT), Id(next + 2), Id(sum), Id(value)])?;
            sum = next + 2;
            next += 3;
        }
        Ok(sum)
    }

    /// The store of a value, and the end of the function.
    fn function_end(&mut self, value: u32) -> Result<(), NoMemory>
        ensures { OnOk result (self.new ≡ self.old ++ function_end value) }
    {
        self.push(
            op::ACCESS_CHAIN,
            [
                Id(id::UINT_POINTER),
                Id(id::ELEMENT),
                Id(id::BUFFER),
                Id(id::ZERO),
                Id(id::PLACE + 1),
            ],
        )?;
        self.push(op::STORE, [Id(id::ELEMENT), Id(value)])?;
        self.push(op::RETURN, [])?;
        self.push(op::FUNCTION_END, [])
    }

    fn reflection(&mut self) -> Result<(), NoMemory>
        ensures { OnOk result (self.new ≡ self.old ++ reflection) }
    {
        self.line(
            id::KERNEL_LINE,
            reflection_line::KERNEL,
            &[id::MAIN, id::KERNEL_NAME],
        )?;
        self.line(
            id::NAME_LINE,
            reflection_line::ARGUMENT_INFO,
            &[id::ARGUMENT_NAME],
        )?;
        self.line(
            id::BUFFER_LINE,
            reflection_line::ARGUMENT_STORAGE_BUFFER,
            &[id::KERNEL_LINE, id::ZERO, id::ZERO, id::ZERO, id::NAME_LINE],
        )?;
        self.line(
            id::SIZES_LINE,
            reflection_line::SPEC_CONSTANT_WORKGROUP_SIZE,
            &[id::ZERO, id::ONE, id::TWO],
        )
    }

    /// A reflection line of a number, with the ids that it takes.
    fn line(&mut self, line: u32, number: u32, operands: &[u32]) -> Result<(), NoMemory>
        ensures { OnOk result (self.new ≡ self.old ++ inst op.EXT_INST (Id id.VOID ∷ Id line ∷ Id id.REFLECTION ∷ Word number ∷ map (λ i. Id i) operands.now) ∷ []) }
    {
        let mut all = vec![in self.alloc;
            Id(id::VOID),
            Id(line),
            Id(id::REFLECTION),
            Word(number),
        ]?;
        for operand in operands {
            all.push(Id(*operand))?;
        }
        self.insts.push(Inst {
            op: op::EXT_INST,
            operands: List::from_vec(all),
        })
    }
}
