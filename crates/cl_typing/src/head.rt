//! Heads of functions.

ghost use Rattle.std.specs.Prelude.{◌≡◌, ◌&&◌, option_copied, IfOk, IfErr, OnOk};
ghost use Rattle.cl_make.specs.Ready.{Grows};
ghost use Rattle.cl_rules.specs.Operands.{first_broken};
ghost use Rattle.cl_scope.specs.Scopes.{IsKnownEnv};
ghost use Rattle.cl_tree.specs.Units.{types_of};
ghost use Rattle.cl_typing.specs.Units.{with_env, same_types, differs, is_made, function_tests_at, signature};
ghost use Rattle.cl_typing.specs.UnitAnswers.{HeadIs, HeadStops};

use crate::condition::out;
use crate::declaring::next_number;
use crate::name_list::NameList;
use crate::param::params;
use crate::size::{is_kernel, sizes};
use crate::unit_state::UnitState;
use cl_ast::declaration::{FWord, Param};
use cl_ast::expression::Spec;
use cl_rules::{Qualified, first_broken};
use cl_scope::Signature;
use cl_tree::{Shape, Variable};
use cl_type_expr::words;
use cl_types::{TypeId, TypeTable};
use clv_place::{List, NoMemory, Place, Stop, Text};
use std::alloc::Global;

/// What the head of a function says: its result, its parameters and the size that it requires; and the mark by which
/// the block of its parameters is left.
#[derive(Drop)]
pub struct Head {
    pub q: Qualified,
    pub params: List<Variable>,
    pub size: Option<[u32; 3]>,
    pub mark: usize,
}

fn types_of(alloc: Global, params: &[Variable]) -> Result<List<TypeId>, NoMemory>
    ensures { IfOk result (λ ts. ts ≡ types_of params.now) }
{
    let mut types = List::new(alloc);
    for param in params {
        types.push(param.ty)?;
    }
    Ok(types)
}

fn same_types(ts: &[TypeId], us: &[TypeId]) -> bool
    ensures { result ≡ same_types ts.now us.now }
{
    if ts.len() != us.len() {
        return false;
    }
    for i in 0..ts.len() {
        if ts[i].0 != us[i].0 {
            return false;
        }
    }
    true
}

// Whether a function was declared before with another type.
fn differs(before: Option<&Signature>, params: &[TypeId], gives: TypeId, kernel: bool) -> bool
    ensures { result ≡ differs (option_copied before.entry) params.now gives kernel }
{
    match before {
        None => false,
        Some(s) => {
            !(same_types(s.params.as_slice(), params)
                && s.result.0 == gives.0
                && s.kernel == kernel)
        }
    }
}

// The least code that a function breaks: 302, 303, 326, 327, 332.
fn function_broken(
    gives: Shape,
    taken: bool,
    spaced: bool,
    kernel: bool,
    differ: bool,
    again: bool,
) -> Option<u16>
    ensures { result ≡ first_broken (function_tests_at gives taken spaced kernel differ again) }
{
    first_broken(&[
        (302, taken),
        (303, gives.is_array() || gives.is_pointer()),
        (326, spaced),
        (327, kernel && !gives.is_void()),
        (332, differ || again),
    ])
}

// Whether a function gets a second body.
fn has_two_bodies(body: bool, unit: &UnitState, name: &[u8]) -> bool
    ensures { result ≡ (body && is_made name.now unit.now) }
{
    body && unit.is_made(name)
}

// A function, by its number among those that have a body in the unit.
fn signature(
    alloc: Global,
    bodies: &NameList,
    name: &[u8],
    params: List<TypeId>,
    gives: TypeId,
    kernel: bool,
) -> Result<Signature, NoMemory>
    ensures { IfOk result (λ s. s ≡ signature bodies.now name.now params gives kernel) }
{
    let at = bodies.position(name);
    let number = match at {
        None => 0,
        Some(at) => next_number(at)?,
    };
    Ok(Signature {
        number,
        name: Text::from_bytes(alloc, name)?,
        params,
        result: gives,
        kernel,
        body: at.is_some(),
    })
}

/// The head of a function, with a body or without (C99, 6.7.5.3; OpenCL C 1.2, 6.7 and 6.9). The block of its
/// parameters is entered, and the function is declared.
pub(crate) fn typed_head(
    alloc: Global,
    bodies: &NameList,
    before: &[FWord],
    spec: &Spec,
    name: &Text,
    place: Place,
    all: &[Param],
    body: bool,
    unit: &mut UnitState,
    types: &mut TypeTable,
) -> Result<Head, Stop>
    requires known { IsKnownEnv types.old unit.old.env }
    ensures ok { IfOk result (HeadIs types.new bodies.now unit.old before.now spec.now name.now all.now body unit.new.env) }
    ensures out { IfErr result (HeadStops types.new unit.old before.now spec.now name.now place all.now body) }
    ensures rest { OnOk result (unit.new ≡ with_env unit.new.env unit.old) }
    ensures grows { Grows types.old types.new }
{
    let given = unit.size_for(name.as_slice()).is_some();
    let size = sizes(alloc, given, before, &mut unit.env, types)?;
    let q = words(alloc, spec, &mut unit.env, types)?;
    let taken = unit.env.is_declared(name.as_slice());
    let kernel = is_kernel(before);
    let mark = unit.env.enter();
    let params = params(alloc, kernel, all, &mut unit.env, types)?;
    let param_types = types_of(alloc, params.as_slice())?;
    let earlier = unit.env.find_function(name.as_slice());
    let differ = differs(earlier, param_types.as_slice(), q.ty, kernel);
    let again = has_two_bodies(body, unit, name.as_slice());
    if let Some(code) = function_broken(q.shape, taken, q.space.is_some(), kernel, differ, again) {
        return Err(out(code, place));
    }
    let function = signature(alloc, bodies, name.as_slice(), param_types, q.ty, kernel)?;
    unit.env.add_function(function)?;
    Ok(Head {
        q,
        params,
        size,
        mark,
    })
}
