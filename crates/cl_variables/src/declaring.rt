//! Declared variables.

ghost use Rattle.std.specs.Prelude.{◌≡◌, ◌<◌, ◌||◌, false, is_some, Some, IfOk, IfErr, OnOk};
ghost use Rattle.cl_ast.specs.declared.declaration.InitDeclor.{InitDeclor as AnInitDeclor};
ghost use Rattle.cl_ast.specs.declared.expression.Base.TheViews.{out-Declor};
ghost use Rattle.cl_builtins.specs.Found.{IsKnown};
ghost use Rattle.cl_make.specs.Ready.{Grows, IsReadyType};
ghost use Rattle.cl_rules.specs.Operands.{first_broken};
ghost use Rattle.cl_scope.specs.Scopes.{IsKnownEnv};
ghost use Rattle.cl_scope.specs.Names.{declare};
ghost use Rattle.cl_words.specs.Words.{is_open, no_declared_type};
ghost use Rattle.cl_type_expr.specs.Typing.{ArePositive, IsReadySketch, DeclaredIs};
ghost use Rattle.cl_variables.specs.Declarations.{space_at, is_private, is_local, no_space_at, no_type_at, is_file, is_braced, name_tests_at, whole_tests_at, variable as the_variable};
ghost use Rattle.cl_variables.specs.Answers.{again_at, NameIs, NameStops, WholeIs, WholeStops, VariableIs, VariableStops};

use crate::initial::{Initial, initialised};
use crate::tally::Tally;
use crate::valued::out;
use cl_ast::declaration::{Init, InitDeclor};
use cl_ast::expression::Declor;
use cl_rules::{Qualified, first_broken};
use cl_scope::{Declared, DeclaredKind, Names};
use cl_tree::{TExpr, Variable};
use cl_type_expr::{declared, lengths};
use cl_types::{Space, TypeId, TypeStop, TypeTable};
use cl_words::{Sketch, is_open, some_wrong};
use clv_place::{NoMemory, Stop, Text};
use std::alloc::Global;

/// Where a variable stands: at file scope, at the outermost block of a kernel, or elsewhere in a function.
#[derive(Clone, Copy, PartialEq, Eq, Debug)]
pub enum Where {
    AtFileScope,
    InKernel,
    Inside,
}

/// A declared variable, and its initialiser's tree where it has one.
#[derive(Drop)]
pub struct VariableRead {
    pub variable: Variable,
    pub tree: Option<TExpr>,
}

fn is_private(space: Space) -> bool
    ensures { result ≡ is_private space }
{
    match space {
        Space::Private => true,
        _ => false,
    }
}

fn is_local(space: Space) -> bool
    ensures { result ≡ is_local space }
{
    match space {
        Space::Local => true,
        _ => false,
    }
}

fn is_braced(init: &Option<Init>) -> bool
    ensures { result ≡ is_braced init.now }
{
    match init {
        Some(Init::Braces { .. }) => true,
        _ => false,
    }
}

impl Where {
    // The address space of what is declared with this one, or with none.
    fn space(self, named: Option<Space>) -> Space
        ensures { result ≡ space_at self named }
    {
        match (self, named) {
            (Where::AtFileScope, _) => Space::Constant,
            (_, None) => Space::Private,
            (_, Some(space)) => space,
        }
    }

    // Whether nothing can be declared in this address space (326).
    fn has_no_space(self, named: Option<Space>) -> bool
        ensures { result ≡ no_space_at self named }
    {
        match (self, named) {
            (Where::AtFileScope, Some(Space::Constant)) => false,
            (Where::AtFileScope, _) => true,
            (_, None) => false,
            (_, Some(Space::Private)) => false,
            (Where::InKernel, Some(Space::Local)) => false,
            (_, Some(_)) => true,
        }
    }

    fn is_file(self) -> bool
        ensures { result ≡ is_file self }
    {
        match self {
            Where::AtFileScope => true,
            _ => false,
        }
    }

    // Whether no variable has the type (303).
    fn has_no_type(self, sketch: &Sketch) -> bool
        ensures { result ≡ no_type_at self sketch.now }
    {
        sketch.has_no_type()
            || sketch.is_void()
            || (!is_private(self.space(sketch.space)) && sketch.is_no_element())
    }

    // Whether a name is declared already where a variable would be declared (302): at file scope by a function too.
    fn has(self, names: &Names, name: &[u8]) -> bool
        ensures { result ≡ again_at self names.now name.now }
    {
        match self {
            Where::AtFileScope => names.is_declared(name) || names.find_function(name).is_some(),
            _ => names.is_declared(name),
        }
    }

    // The least code that a declared name breaks by itself, but for the limits of its type: 302, 303, 304, 326.
    fn name_broken(self, again: bool, sketch: &Sketch) -> Option<u16>
        ensures { result ≡ first_broken (name_tests_at self again sketch.now false false) }
    {
        first_broken(&[
            (302, again),
            (303, self.has_no_type(sketch)),
            (304, some_wrong(sketch.lengths.as_slice())),
            (326, sketch.clash || self.has_no_space(sketch.space)),
            (501, false),
            (502, false),
        ])
    }

    // The least code that a name breaks with its initialiser, but for the limits of its type: 304, 311, 325, 326, 333.
    fn whole_broken(self, sketch: &Sketch, init: &Option<Init>, tally: Tally) -> Option<u16>
        ensures { result ≡ first_broken (whole_tests_at self sketch.now init.now tally false false) }
    {
        let some = init.is_some();
        let local = is_local(self.space(sketch.space));
        first_broken(&[
            (304, is_open(sketch.lengths.as_slice()) && !is_braced(init)),
            (311, tally.no_value),
            (325, self.is_file() && (!some || tally.varies)),
            (326, local && some),
            (333, tally.no_pointer),
            (501, false),
            (502, false),
        ])
    }
}

// The type that a declared name has by itself, with one element where its first length is missing: 302, 303, 304,
// 326, 501, 502.
fn first_type(
    alloc: Global,
    at: Where,
    name: &Declor,
    sketch: &Sketch,
    names: &Names,
    types: &mut TypeTable,
) -> Result<TypeId, Stop>
    requires ready { no_declared_type sketch.now ≡ false → IsReadySketch types.old sketch.now }
    requires positive { ArePositive sketch.now.lengths }
    ensures ok { IfOk result (NameIs types.new at (again_at at names.now (out-Declor name.now).name) sketch.now) }
    ensures out { IfErr result (NameStops types.new at (again_at at names.now (out-Declor name.now).name) (out-Declor name.now).place sketch.now) }
    ensures grows { Grows types.old types.new }
{
    types.is_table();
    let again = at.has(names, name.name.as_slice());
    if let Some(code) = at.name_broken(again, sketch) {
        return Err(out(code, name.place));
    }
    match declared(alloc, sketch, 1, types) {
        Ok(ty) => Ok(ty),
        Err(TypeStop::TooLarge) => Err(out(501, name.place)),
        Err(TypeStop::TooDeep) => Err(out(502, name.place)),
        Err(TypeStop::NoMemory) => Err(Stop::NoMemory),
    }
}

// The type that a declared name has with its initialiser: 304, 311, 325, 326, 333, 501, 502.
fn whole_type(
    alloc: Global,
    at: Where,
    d: &InitDeclor,
    sketch: &Sketch,
    first: TypeId,
    initial: &Initial,
    types: &mut TypeTable,
) -> Result<TypeId, Stop>
    requires ready { IsReadySketch types.old sketch.now }
    requires element { no_declared_type sketch.now ≡ false }
    requires positive { ArePositive sketch.now.lengths }
    requires type_is { DeclaredIs types.old sketch.now 1 first }
    requires some { 0 < initial.now.count }
    requires one { is_open sketch.now.lengths ≡ false → initial.now.count ≡ 1 }
    ensures ok { IfOk result (WholeIs types.new at d.now sketch.now initial.now.tally initial.now.count) }
    ensures out { IfErr result (WholeStops types.new at d.now sketch.now initial.now.tally initial.now.count) }
    ensures grows { Grows types.old types.new }
{
    types.is_table();
    let place = d.name.place;
    if let Some(code) = at.whole_broken(sketch, &d.init, initial.tally) {
        return Err(out(code, place));
    }
    if !is_open(sketch.lengths.as_slice()) {
        return Ok(first);
    }
    match declared(alloc, sketch, initial.count, types) {
        Ok(ty) => Ok(ty),
        Err(TypeStop::TooLarge) => Err(out(501, place)),
        Err(TypeStop::TooDeep) => Err(out(502, place)),
        Err(TypeStop::NoMemory) => Err(Stop::NoMemory),
    }
}

// Declares a variable.
fn declare(
    alloc: Global,
    at: Where,
    name: &Text,
    ty: TypeId,
    sketch: &Sketch,
    kind: DeclaredKind,
    complete: bool,
    names: &mut Names,
) -> Result<(), NoMemory>
    ensures { OnOk result (names.new ≡ declare (the_variable at name.now ty sketch.now kind complete) names.old) }
{
    names.declare(Declared {
        name: Text::from_bytes(alloc, name.as_slice())?,
        ty,
        space: at.space(sketch.space),
        readonly: sketch.readonly,
        kind,
        complete,
    })
}

/// A declared variable with its initialiser (C99, 6.7; OpenCL C 1.2, 6.5), which is in scope from its name on: 302 to
/// 304, 311, 325, 326, 333, 501, 502, and those of its lengths and its initialiser. An array whose first length is
/// missing counts as incomplete, with one element, in its own initialiser.
pub fn variable(
    alloc: Global,
    at: Where,
    kind: DeclaredKind,
    q: Qualified,
    d: &InitDeclor,
    names: &mut Names,
    types: &mut TypeTable,
) -> Result<VariableRead, Stop>
    requires known { IsKnownEnv types.old names.old }
    requires type_ready { IsReadyType types.old q }
    ensures ok { IfOk result (VariableIs types.new at kind names.old q d.now names.new) }
    ensures out { IfErr result (VariableStops types.new at kind names.old q d.now) }
    ensures grows { Grows types.old types.new }
{
    types.is_table();
    let lengths = lengths(alloc, &d.name.lengths, true, names, types)?;
    let sketch = Sketch::new(q, &d.name.star, lengths);
    let first = first_type(alloc, at, &d.name, &sketch, names, types)?;
    let complete = !is_open(sketch.lengths.as_slice());
    declare(
        alloc,
        at,
        &d.name.name,
        first,
        &sketch,
        kind,
        complete,
        names,
    )?;
    let initial = initialised(alloc, at.is_file(), &d.init, &sketch, first, names, types)?;
    let ty = whole_type(alloc, at, d, &sketch, first, &initial, types)?;
    declare(alloc, at, &d.name.name, ty, &sketch, kind, true, names)?;
    let variable = Variable {
        name: Text::from_bytes(alloc, d.name.name.as_slice())?,
        ty,
        space: at.space(sketch.space),
        place: d.name.place,
    };
    Ok(VariableRead {
        variable,
        tree: initial.tree,
    })
}
