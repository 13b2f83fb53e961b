//! Parameters of functions.

ghost use Rattle.std.specs.Prelude.{◌≡◌, IfOk, IfErr, OnOk};
ghost use Rattle.cl_make.specs.Ready.{Grows};
ghost use Rattle.cl_rules.specs.Operands.{first_broken};
ghost use Rattle.cl_scope.specs.Scopes.{IsKnownEnv};
ghost use Rattle.cl_tree.specs.Units.{is_kernel_param};
ghost use Rattle.cl_typing.specs.Units.{has_space, is_again, param_tests_at, param_named, name_of};
ghost use Rattle.cl_typing.specs.UnitAnswers.{ParamIs, ParamStops, ParamsAreTyped, ParamsStop};

use crate::condition::out;
use crate::declaring::next_number;
use cl_ast::declaration::Param;
use cl_make::given;
use cl_rules::first_broken;
use cl_scope::{Declared, DeclaredKind, Names};
use cl_tree::{Shape, Variable};
use cl_type_expr::words;
use cl_types::{Space, TypeId, TypeTable};
use cl_words::Sketch;
use clv_place::{List, NoMemory, Stop, Text};
use std::alloc::Global;

/// The most parameters of a function.
const MAX_PARAMS: usize = 32;

// Whether an address space is named, other than private.
fn has_space(space: Option<Space>) -> bool
    ensures { result ≡ has_space space }
{
    match space {
        None => false,
        Some(Space::Private) => false,
        Some(_) => true,
    }
}

// Whether a kernel may take a parameter of this type.
fn is_kernel_param(s: Shape) -> bool
    ensures { result ≡ is_kernel_param s }
{
    match s {
        Shape::Integers(_) => true,
        Shape::Struct => true,
        Shape::Pointer { space, .. } => !matches!(space, Space::Private),
        _ => false,
    }
}

// Whether the innermost block declares the name of a parameter already.
fn is_again(names: &Names, name: &Option<Text>) -> bool
    ensures { result ≡ is_again names.now name.now }
{
    match name {
        None => false,
        Some(name) => names.is_declared(name.as_slice()),
    }
}

// The least code that a parameter breaks: 302, 303, 326, 327, 504.
fn param_broken(
    kernel: bool,
    again: bool,
    sized: bool,
    star: bool,
    sketch: &Sketch,
    before: usize,
) -> Option<u16>
    ensures { result ≡ first_broken (param_tests_at kernel again sized star sketch.now before) }
{
    let shape = sketch.shape;
    first_broken(&[
        (302, again),
        (
            303,
            sketch.has_no_type() || shape.is_void() || shape.is_array(),
        ),
        (326, sketch.clash || has_space(sketch.space)),
        (327, kernel && (!is_kernel_param(shape) || (sized && !star))),
        (504, before == MAX_PARAMS),
    ])
}

// Declares a parameter, where it has a name.
fn declare(
    alloc: Global,
    name: &Option<Text>,
    ty: TypeId,
    sketch: &Sketch,
    number: usize,
    names: &mut Names,
) -> Result<(), NoMemory>
    ensures { OnOk result (names.new ≡ param_named name.now ty sketch.now number names.old) }
{
    match name {
        None => Ok(()),
        Some(name) => names.declare(Declared {
            name: Text::from_bytes(alloc, name.as_slice())?,
            ty,
            space: Space::Private,
            readonly: sketch.readonly,
            kind: DeclaredKind::Param(next_number(number)?),
            complete: true,
        }),
    }
}

// The name of a parameter, which is empty where it has none.
fn name_of(alloc: Global, name: &Option<Text>) -> Result<Text, NoMemory>
    ensures { IfOk result (λ t. t ≡ name_of name.now) }
{
    match name {
        None => Ok(Text::new(alloc)),
        Some(name) => Text::from_bytes(alloc, name.as_slice()),
    }
}

// A parameter behind others: 302, 303, 326, 327, 504.
fn param(
    alloc: Global,
    kernel: bool,
    one: &Param,
    before: &mut List<Variable>,
    names: &mut Names,
    types: &mut TypeTable,
) -> Result<(), Stop>
    requires known { IsKnownEnv types.old names.old }
    ensures ok { OnOk result (ParamIs types.new kernel names.old before.old one.now names.new before.new) }
    ensures out { IfErr result (ParamStops types.new kernel names.old before.old one.now) }
    ensures grows { Grows types.old types.new }
{
    let q = words(alloc, &one.spec, names, types)?;
    types.is_table();
    let sketch = Sketch::new(q, &one.star, List::new(alloc));
    let again = is_again(names, &one.name);
    let star = one.star.is_some();
    if let Some(code) = param_broken(kernel, again, q.sized, star, &sketch, before.len()) {
        return Err(out(code, one.place));
    }
    let ty = given(sketch.of, types)?;
    declare(alloc, &one.name, ty, &sketch, before.len(), names)?;
    before.push(Variable {
        name: name_of(alloc, &one.name)?,
        ty,
        space: Space::Private,
        place: one.place,
    })?;
    Ok(())
}

/// The parameters of a function, which are declared in the innermost block.
pub(crate) fn params(
    alloc: Global,
    kernel: bool,
    all: &[Param],
    names: &mut Names,
    types: &mut TypeTable,
) -> Result<List<Variable>, Stop>
    requires known { IsKnownEnv types.old names.old }
    ensures ok { IfOk result (ParamsAreTyped types.new kernel names.old all.now names.new) }
    ensures out { IfErr result (ParamsStop types.new kernel names.old all.now) }
    ensures grows { Grows types.old types.new }
{
    types.is_table();
    let mut params = List::new(alloc);
    for one in all {
        param(alloc, kernel, one, &mut params, names, types)?;
    }
    Ok(params)
}
