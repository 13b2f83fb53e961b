//! Labels of a `switch`.

ghost use Rattle.std.specs.Prelude.{◌≡◌, true, false, not, ◌∷◌, [], IfOk, IfErr, OnOk};
ghost use Rattle.cl_tree.specs.Shapes.{is_number};
ghost use Rattle.cl_builtins.specs.Kinds.{is_gentype};
ghost use Rattle.cl_make.specs.Ready.{Grows, IsReady};
ghost use Rattle.cl_rules.specs.Operands.{first_broken};
ghost use Rattle.cl_scope.specs.Scopes.{IsKnownEnv};
ghost use Rattle.cl_typing.specs.Answers.{LabelsAreTyped, LabelsStop, LabelIs, LabelStops, CaseIs, CaseStops, CaseValueIs, CaseValueStops};
ghost use Rattle.cl_typing.specs.Statements.{tested_first, no_case, and_seen, default_tests, falls_at};

use crate::condition::{out, tested_type};
use crate::values::Values;
use cl_ast::expression::Expr;
use cl_ast::statement::Label;
use cl_builtins::Gentype;
use cl_constants::{constancy, divides, number_in, number_to, shape};
use cl_make::{Typed, converted};
use cl_rules::{Operand, Want, first_broken};
use cl_scope::Names;
use cl_tree::{Shape, TExpr};
use cl_type_expr::expr;
use cl_types::TypeTable;
use clv_place::{NoMemory, Place, Stop};
use std::alloc::Global;

/// What the sections of a `switch` know: the type of what is tested, the values that stand there already, whether a
/// default does, and whether the section before ends.
#[derive(Drop)]
pub struct Tested {
    pub of: Gentype,
    pub seen: Values,
    pub has_default: bool,
    pub before: bool,
}

impl Tested {
    /// Before the first section, where a value of this type is tested.
    pub(crate) fn first(alloc: Global, s: Shape) -> Tested
        ensures { result ≡ tested_first s }
    {
        Tested {
            of: tested_type(s),
            seen: Values::new(alloc),
            has_default: false,
            before: true,
        }
    }

    // Whether a value isn't one of a case here: it isn't constant, or stands there already.
    fn has_no_case(&self, n: Option<u64>) -> bool
        ensures { result ≡ no_case n self.now.seen }
    {
        match n {
            None => true,
            Some(n) => self.seen.contains(n),
        }
    }

    // The least code that a case's value breaks: 311, 320.
    fn case_broken(&self, o: Operand, n: Option<u64>) -> Option<u16>
        ensures { result ≡ first_broken ((311, not (is_number o.shape)) ∷ (320, no_case n self.now.seen) ∷ []) }
    {
        first_broken(&[(311, !o.shape.is_number()), (320, self.has_no_case(n))])
    }

    // Adds the value of a case.
    fn see(&mut self, n: Option<u64>) -> Result<(), NoMemory>
        requires { no_case n self.old.seen ≡ false }
        ensures { OnOk result (self.new ≡ and_seen n self.old) }
    {
        match n {
            None => Ok(()),
            Some(n) => self.seen.push(n),
        }
    }
}

// The value of a case, converted to the type of what is tested: 334 where it divides by zero or out of range.
fn case_value(
    alloc: Global,
    typed: &Typed,
    of: Gentype,
    types: &TypeTable,
) -> Result<Option<u64>, Stop>
    requires ready { IsReady types.now typed.now }
    requires kind { is_gentype of ≡ true }
    ensures ok { IfOk result (CaseValueIs types.now of typed.now) }
    ensures out { IfErr result (CaseValueStops types.now typed.now.tree) }
{
    types.is_table();
    let value = constancy(alloc, types, &typed.tree)?;
    if let Some(place) = divides(&value) {
        return Err(out(334, place));
    }
    let from = shape(types, typed.tree.ty);
    match number_in(from, &value) {
        None => Ok(None),
        Some(n) => Ok(Some(number_to(from, Shape::Integers(of), n))),
    }
}

// A case: 311, 320, 334.
fn case(
    alloc: Global,
    e: &Expr,
    place: Place,
    tested: &mut Tested,
    names: &mut Names,
    types: &mut TypeTable,
) -> Result<TExpr, Stop>
    requires known { IsKnownEnv types.old names.old }
    requires kind { is_gentype tested.old.of ≡ true }
    ensures ok { IfOk result (CaseIs types.new tested.old names.old e.now tested.new names.new) }
    ensures out { IfErr result (CaseStops types.new tested.old names.old e.now place) }
    ensures grows { Grows types.old types.new }
{
    types.is_table();
    let typed = expr(alloc, e, false, names, types)?;
    types.is_table();
    let n = case_value(alloc, &typed, tested.of, types)?;
    if let Some(code) = tested.case_broken(typed.operand, n) {
        return Err(out(code, place));
    }
    let want = Want::Of(Shape::Integers(tested.of));
    tested.see(n)?;
    Ok(converted(alloc, want, typed, types)?)
}

// The least code that a default breaks: 321, 322.
fn default_broken(again: bool, falls: bool) -> Option<u16>
    ensures { result ≡ first_broken (default_tests again falls) }
{
    first_broken(&[(321, again), (322, falls)])
}

// Whether a default of a section falls through: the section isn't the last, and doesn't stand between two that end.
pub(crate) fn falls(last: bool, ends: bool, before: bool) -> bool
    ensures { result ≡ falls_at last ends before }
{
    !last && !(ends && before)
}

// A label of a section, where a default would fall through or not.
fn label(
    alloc: Global,
    falls: bool,
    label: &Label,
    tested: &mut Tested,
    names: &mut Names,
    types: &mut TypeTable,
) -> Result<Option<TExpr>, Stop>
    requires known { IsKnownEnv types.old names.old }
    requires kind { is_gentype tested.old.of ≡ true }
    ensures ok { IfOk result (LabelIs types.new falls tested.old names.old label.now tested.new names.new) }
    ensures out { IfErr result (LabelStops types.new falls tested.old names.old label.now) }
    ensures grows { Grows types.old types.new }
{
    types.is_table();
    match &label.value {
        Some(e) => {
            let value = case(alloc, e, label.place, tested, names, types)?;
            Ok(Some(value))
        }
        None => {
            if let Some(code) = default_broken(tested.has_default, falls) {
                return Err(out(code, label.place));
            }
            tested.has_default = true;
            Ok(None)
        }
    }
}

// The labels of a section, where a default would fall through or not.
pub(crate) fn labels(
    alloc: Global,
    falls: bool,
    all: &[Label],
    tested: &mut Tested,
    names: &mut Names,
    types: &mut TypeTable,
) -> Result<Vec<Option<TExpr>>, Stop>
    requires known { IsKnownEnv types.old names.old }
    requires kind { is_gentype tested.old.of ≡ true }
    ensures ok { IfOk result (λ ls. LabelsAreTyped types.new falls tested.old names.old all.now tested.new names.new ls.items) }
    ensures out { IfErr result (LabelsStop types.new falls tested.old names.old all.now) }
    ensures grows { Grows types.old types.new }
{
    types.is_table();
    let mut typed = Vec::new(alloc);
    for one in all {
        typed.push(label(alloc, falls, one, tested, names, types)?)?;
    }
    Ok(typed)
}
