//! How many cells a launch takes in the machine: one for each scalar that its invocations and groups hold.
//! A number that 64 bits don't hold is given as the greatest that they do.

ghost use Rattle.std.specs.Prelude.{◌≡◌, ◌+◌, ◌*◌, ◌/◌, ◌≤◌, length, sum, map, drop};
ghost use Rattle.std.specs.List.{list_any};
ghost use Rattle.launch_text.specs.WorkItems.{volume, sizes_of};
ghost use Rattle.spv_module.specs.Instructions.{ids, definition_in};
ghost use Rattle.spv_module.specs.Interface.{pointee_by};
ghost use Rattle.spv_module.specs.Readings.{said_by};
ghost use Rattle.spv_meaning.specs.Invocation.{place_after as place_behind};
ghost use Rattle.spv_meaning.specs.Cells as spec;
ghost use Rattle.run_machine.specs.Capped.{capped};
ghost use Rattle.run_machine.specs.Views.{body_by, start_by};

use crate::begin::{items_of, place_after};
use crate::launch::body_of;
use spv_module::enumerant::storage_class;
use spv_module::lookup::{definition, pointee};
use spv_module::module::{Inst, Operand};
use spv_module::reading::Said;
use vk_bind::Start;

/// The most cells that a launch may need.
pub const MAX_CELLS: u64 = 16_777_216;

// How deep types nest at the most.
const DEPTH: u32 = 18;

fn plus(a: u64, b: u64) -> u64
    ensures { result ≡ capped (a + b) }
{
    a.saturating_add(b)
}

#[tactic(auto, using(crate::proofs::Counting::products))]
fn times(a: u64, b: u64) -> u64
    ensures { result ≡ capped (a * b) }
{
    a.saturating_mul(b)
}

// The scalars of values of these types, which nest so deep at the most.
#[cycle(types)]
#[tactic(auto, using(crate::proofs::Counting::counting))]
fn scalars_of_all(body: &[Inst], depth: u32, types: &[Operand]) -> u64
    ensures { result ≡ capped (sum (map (spec.scalars_within depth body.now) (ids types.now))) }
{
    let mut sum = 0;
    let mut rest = types;
    while let [operand, others @ ..] = rest {
        if let Operand::Id(ty) = operand {
            sum = plus(sum, scalars_within(body, depth, *ty));
        }
        rest = others;
    }
    sum
}

// The scalars of a value of a type, which nests so deep at the most. A valid type has at most 65,536, so a
// count that goes down each member by itself is short.
#[cycle(types)]
#[tactic(auto, using(crate::proofs::Counting::counting))]
fn scalars_within(body: &[Inst], depth: u32, ty: u32) -> u64
    ensures { result ≡ capped (spec.scalars_within depth body.now ty) }
{
    if depth == 0 {
        return 0;
    }
    match definition(body, ty) {
        Some(Said::IntType { .. }) => 1,
        Some(Said::VectorType { count, .. }) => count as u64,
        Some(Said::StructType { members, .. }) => scalars_of_all(body, depth - 1, members),
        Some(Said::PointerType { .. }) => 2,
        _ => 0,
    }
}

fn scalars_of(body: &[Inst], ty: u32) -> u64
    ensures { result ≡ capped (spec.scalars_of body.now ty) }
{
    scalars_within(body, DEPTH, ty)
}

// The scalars of the result that a line makes in its block.
fn result_cells(body: &[Inst], said: Said<'_>) -> u64
    ensures { result ≡ capped (spec.result_cells body.now (said_by said.entry)) }
{
    match said {
        Said::Load { ty, .. } => scalars_of(body, ty),
        Said::AccessChain { ty, .. } => scalars_of(body, ty),
        Said::Extract { ty, .. } => scalars_of(body, ty),
        Said::Add { ty, .. } => scalars_of(body, ty),
        _ => 0,
    }
}

// The scalars of what a pointer type leads to.
fn pointee_cells(body: &[Inst], ty: u32) -> u64
    ensures { result ≡ capped (spec.pointee_cells body.now (pointee_by (definition_in body.now ty))) }
{
    match pointee(body, ty) {
        Some(inner) => scalars_of(body, inner),
        None => 0,
    }
}

// The scalars of the variable that a line makes.
fn variable_cells(body: &[Inst], said: Said<'_>) -> u64
    ensures { result ≡ capped (spec.variable_cells body.now (said_by said.entry)) }
{
    match said {
        Said::Variable { ty, .. } => pointee_cells(body, ty),
        _ => 0,
    }
}

fn is_end(said: &Said<'_>) -> bool
    ensures { result ≡ spec.is_end (said_by said.now) }
{
    match *said {
        Said::FunctionEnd => true,
        _ => false,
    }
}

fn is_label(said: &Said<'_>) -> bool
    ensures { result ≡ spec.is_label (said_by said.now) }
{
    match *said {
        Said::Label { .. } => true,
        _ => false,
    }
}

// The lines behind so many.
fn behind(lines: &[Inst], count: usize) -> &[Inst]
    requires { count ≤ length lines.now }
    ensures { result.now ≡ drop count lines.now }
{
    &lines[count..]
}

// The lines up to a function's end.
fn up_to_end(lines: &[Inst]) -> &[Inst]
    ensures { result.now ≡ spec.up_to_end lines.now }
{
    let mut count = 0;
    let mut rest = lines;
    while let [inst, others @ ..] = rest {
        if is_end(&inst.says()) {
            return &lines[..count];
        }
        count += 1;
        rest = others;
    }
    lines
}

// A function's lines.
fn lines_of(body: &[Inst], function: u32) -> &[Inst]
    ensures { result.now ≡ spec.lines_of body.now function }
{
    up_to_end(behind(body, place_after(body, function)))
}

// The scalars of the variables that lines make.
fn variables(body: &[Inst], lines: &[Inst]) -> u64
    ensures { result ≡ capped (sum (map (spec.line_variable_cells body.now) lines.now)) }
{
    let mut sum = 0;
    let mut rest = lines;
    while let [inst, others @ ..] = rest {
        sum = plus(sum, variable_cells(body, inst.says()));
        rest = others;
    }
    sum
}

// The greatest number of scalars of the results of one block.
#[tactic(auto, using(crate::proofs::Counting::blocks))]
fn greatest_block(body: &[Inst], lines: &[Inst]) -> u64
    ensures { result ≡ capped (spec.greatest_block body.now 0 lines.now) }
{
    let mut best = 0u64;
    let mut made = 0;
    let mut rest = lines;
    while let [inst, others @ ..] = rest {
        let said = inst.says();
        if is_label(&said) {
            best = best.max(made);
            made = 0;
        } else {
            made = plus(made, result_cells(body, said));
        }
        rest = others;
    }
    best.max(made)
}

// The cells of an invocation: one for the call, those of its function's variables, and those of its greatest
// block.
#[tactic(auto, using(crate::proofs::Counting::sums))]
fn item_cells(body: &[Inst], lines: &[Inst]) -> u64
    ensures { result ≡ capped (1 + sum (map (spec.line_variable_cells body.now) lines.now) + spec.greatest_block body.now 0 lines.now) }
{
    plus(plus(1, variables(body, lines)), greatest_block(body, lines))
}

// Whether a line names an id.
fn is_named_by(id: u32, inst: &Inst) -> bool
    ensures { result ≡ spec.is_named_by id inst.now }
{
    let mut rest = inst.operands.as_slice();
    while let [operand, others @ ..] = rest {
        if let Operand::Id(other) = operand {
            if id == *other {
                return true;
            }
        }
        rest = others;
    }
    false
}

// Whether one of the lines names an id.
fn is_named_in(id: u32, lines: &[Inst]) -> bool
    ensures { result ≡ spec.is_named_in id lines.now }
{
    let mut rest = lines;
    while let [inst, others @ ..] = rest {
        if is_named_by(id, inst) {
            return true;
        }
        rest = others;
    }
    false
}

// The scalars of the workgroup variable that a line makes, where a function's lines name it.
fn local_cells(body: &[Inst], lines: &[Inst], said: Said<'_>) -> u64
    ensures { result ≡ capped (spec.local_cells body.now lines.now (said_by said.entry)) }
{
    match said {
        Said::Variable { ty, id, storage } => {
            if storage == storage_class::WORKGROUP && is_named_in(id, lines) {
                pointee_cells(body, ty)
            } else {
                0
            }
        }
        _ => 0,
    }
}

// The cells of a group.
fn group_cells(body: &[Inst], lines: &[Inst]) -> u64
    ensures { result ≡ capped (sum (map (spec.line_local_cells body.now lines.now) body.now)) }
{
    let mut sum = 0;
    let mut rest = body;
    while let [inst, others @ ..] = rest {
        sum = plus(sum, local_cells(body, lines, inst.says()));
        rest = others;
    }
    sum
}

// The number of groups.
fn groups_of(start: &Start) -> u64
    requires { volume (sizes_of start.now.global) ≤ 16384 }
    ensures { result ≡ volume (sizes_of start.now.global) / volume (sizes_of start.now.local) }
{
    let [x, y, z] = start.local;
    let size = x as u128 * y as u128 * z as u128;
    if size == 0 {
        0
    } else {
        (items_of(start) as u128 / size) as u64
    }
}

/// How many cells a launch needs: those of each invocation and of each group. Where 64 bits don't hold the
/// number, the greatest that they do.
#[tactic(auto, using(crate::proofs::Counting::sums))]
pub fn cells_needed(start: &Start) -> u64
    requires { volume (sizes_of start.now.global) ≤ 16384 }
    ensures { result ≡ capped (spec.cells_needed (body_by start.now) (start_by start.now)) }
{
    let body = body_of(start);
    let lines = lines_of(body, start.function);
    plus(
        times(items_of(start) as u64, item_cells(body, lines)),
        times(groups_of(start), group_cells(body, lines)),
    )
}
