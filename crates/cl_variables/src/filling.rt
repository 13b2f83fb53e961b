//! What items fill (C99, 6.7.8). Braces may be left out round the parts of a part, so a part takes as many items as it
//! has room for.

ghost use Rattle.std.specs.Prelude.{◌≡◌, ◌<◌, ◌≤◌, ◌+◌, ◌++◌, ◌∷◌, [], true, false, None, Some, length, slice_get, IfOk, IfErr, OnOk};
ghost use Rattle.cl_builtins.specs.Found.{IsKnown};
ghost use Rattle.cl_tree.specs.Shapes.{shape_of, members_of};
ghost use Rattle.cl_tree.specs.declared.shape.Shape.TheVariants as shape;
ghost use Rattle.cl_make.specs.Building.{IsNode};
ghost use Rattle.cl_make.specs.Ready.{Grows, IsReady};
ghost use Rattle.cl_rules.specs.declared.rule.Head.TheVariants as head;
ghost use Rattle.cl_scope.specs.Scopes.{IsKnownEnv};
ghost use Rattle.cl_variables.specs.Initialisers.{with, clean, has_parts};
ghost use Rattle.cl_variables.specs.Answers.{IsBegun, IsOneFilled, IsWhole, IsMemberAt, PartIs, PartStops, PartsAre, PartsStop, ElementsAre, ElementsStop, MembersAre, MembersStop, BracesAre, BracesStop, ListIs, ListStops, AloneIs, ValueStops, SurplusIs, SurplusStops};

use crate::tally::{Tally, has_parts, takes_whole};
use crate::valued::{Valued, as_wanted, next_value, out, value};
use cl_ast::declaration::Init;
use cl_ast::expression::Expr;
use cl_make::shaped;
use cl_scope::Names;
use cl_tree::{Shape, TExpr, TNode};
use cl_types::{ClType, TypeId, TypeTable};
use clv_place::{NoMemory, Place, Stop};
use std::alloc::Global;

/// What items fill: the trees of what fills it, the index of the first item behind, and what goes wrong.
#[derive(Drop)]
pub(crate) struct Filled {
    pub(crate) trees: Vec<TExpr>,
    pub(crate) next: usize,
    pub(crate) tally: Tally,
}

/// The tree of a list in braces, and whether a value in it isn't constant though it must be.
#[derive(Drop)]
pub(crate) struct Listed {
    pub(crate) tree: TExpr,
    pub(crate) varies: bool,
}

impl Filled {
    /// Nothing is filled before the item at an index.
    pub(crate) fn new(alloc: Global, at: usize) -> Filled
        ensures trees { result.trees.items ≡ [] }
        ensures next { result.next ≡ at }
        ensures tally { result.tally ≡ clean }
    {
        Filled {
            trees: Vec::new(alloc),
            next: at,
            tally: Tally::clean(),
        }
    }

    // By one item before an index.
    fn one(
        alloc: Global,
        tree: Option<TExpr>,
        next: usize,
        tally: Tally,
    ) -> Result<Filled, NoMemory>
        ensures { IfOk result (IsOneFilled tree next tally) }
    {
        let mut trees = Vec::new(alloc);
        if let Some(tree) = tree {
            trees.push(tree)?;
        }
        Ok(Filled { trees, next, tally })
    }

    /// Puts behind what is filled what the items behind fill. For want of memory nothing is said of it.
    pub(crate) fn join(&mut self, part: Filled) -> Result<(), NoMemory>
        ensures trees { OnOk result (self.new.trees.items ≡ self.old.trees.items ++ part.trees.items) }
        ensures next { OnOk result (self.new.next ≡ part.next) }
        ensures tally { OnOk result (self.new.tally ≡ with self.old.tally part.tally) }
    {
        let mut trees = part.trees;
        self.trees.append(&mut trees)?;
        self.next = part.next;
        self.tally = self.tally.with(part.tally);
        Ok(())
    }
}

/// A list in braces.
pub(crate) fn fill(ty: TypeId, place: Place, trees: Vec<TExpr>) -> TExpr
    ensures { IsNode result ty place head.Fill trees.items }
{
    TExpr {
        ty,
        place,
        node: TNode::Fill(trees),
    }
}

// By a value that stands for a whole part, or is to.
fn whole(
    alloc: Global,
    next: usize,
    ty: TypeId,
    valued: Valued,
    types: &mut TypeTable,
) -> Result<Filled, NoMemory>
    requires ready { IsReady types.old valued.typed }
    requires known { IsKnown types.old ty }
    ensures filled { IfOk result (IsWhole types.new ty valued next) }
    ensures grows { Grows types.old types.new }
{
    let taken = as_wanted(alloc, ty, valued, types)?;
    Filled::one(alloc, taken.tree, next, taken.tally)
}

// How many members a struct has.
fn count_of(types: &TypeTable, t: TypeId) -> usize
    requires { IsKnown types.now t }
    ensures { result ≡ length (members_of types.now t) }
{
    match types.get(t) {
        ClType::Struct { members, .. } => members.len(),
        _ => 0,
    }
}

// The type of a struct's member.
fn member_type(types: &TypeTable, t: TypeId, at: usize) -> TypeId
    requires known { IsKnown types.now t }
    requires low { at < length (members_of types.now t) }
    ensures { IsMemberAt (members_of types.now t) at result }
{
    match types.get(t) {
        ClType::Struct { members, .. } => match members.get(at) {
            Some(member) => member.ty,
            None => unreachable!(),
        },
        _ => unreachable!(),
    }
}

// A part of a type, by the items from an index on, of which the first may have been typed already.
#[cycle(filling)]
pub(crate) fn part(
    alloc: Global,
    constant: bool,
    items: &[Init],
    at: usize,
    first: Option<Valued>,
    ty: TypeId,
    names: &mut Names,
    types: &mut TypeTable,
) -> Result<Filled, Stop>
    requires known { IsKnownEnv types.old names.old }
    requires type_known { IsKnown types.old ty }
    requires begun { IsBegun types.old first }
    requires low { at < length items.now }
    ensures ok { IfOk result (PartIs types.new constant names.old first items.now at ty names.new) }
    ensures out { IfErr result (PartStops types.new constant names.old first items.now at ty) }
    ensures grows { Grows types.old types.new }
{
    types.is_table();
    match &items[at] {
        Init::Braces {
            place,
            items: inside,
        } => {
            let listed = list(alloc, constant, *place, inside, ty, names, types)?;
            let tally = Tally::only(listed.varies);
            Ok(Filled::one(alloc, Some(listed.tree), at + 1, tally)?)
        }
        Init::Value(e) => {
            let valued = next_value(alloc, constant, first, e, names, types)?;
            if takes_whole(shaped(types, ty), valued.typed.operand) {
                return Ok(whole(alloc, at + 1, ty, valued, types)?);
            }
            parts(alloc, constant, items, at, Some(valued), ty, names, types)
        }
    }
}

// The parts of an array or a struct, as far as the items go.
#[cycle(filling)]
fn parts(
    alloc: Global,
    constant: bool,
    items: &[Init],
    at: usize,
    first: Option<Valued>,
    ty: TypeId,
    names: &mut Names,
    types: &mut TypeTable,
) -> Result<Filled, Stop>
    requires known { IsKnownEnv types.old names.old }
    requires type_known { IsKnown types.old ty }
    requires composite { has_parts (shape_of types.old ty) ≡ true }
    requires begun { IsBegun types.old first }
    requires low { at < length items.now }
    ensures ok { IfOk result (PartsAre types.new constant names.old first items.now at ty names.new) }
    ensures out { IfErr result (PartsStop types.new constant names.old first items.now at ty) }
    ensures grows { Grows types.old types.new }
{
    types.is_table();
    match shaped(types, ty).shape {
        Shape::Array { elem, len, .. } => {
            elements(alloc, constant, items, at, first, elem, len, names, types)
        }
        Shape::Struct => members(alloc, constant, items, at, first, ty, names, types),
        _ => unreachable!(),
    }
}

// The elements of an array. It takes no time for those that no item is left for.
#[cycle(filling)]
fn elements(
    alloc: Global,
    constant: bool,
    items: &[Init],
    at: usize,
    first: Option<Valued>,
    elem: TypeId,
    len: u32,
    names: &mut Names,
    types: &mut TypeTable,
) -> Result<Filled, Stop>
    requires known { IsKnownEnv types.old names.old }
    requires type_known { IsKnown types.old elem }
    requires some { 0 < len }
    requires begun { IsBegun types.old first }
    requires low { at < length items.now }
    ensures ok { IfOk result (ElementsAre types.new constant names.old first items.now at elem len names.new) }
    ensures out { IfErr result (ElementsStop types.new constant names.old first items.now at elem len) }
    ensures grows { Grows types.old types.new }
{
    types.is_table();
    let mut begun = first;
    let mut filled = Filled::new(alloc, at);
    let mut left = len;
    while left > 0 && filled.next < items.len() {
        let part = part(
            alloc,
            constant,
            items,
            filled.next,
            begun.take(),
            elem,
            names,
            types,
        )?;
        filled.join(part)?;
        left -= 1;
    }
    Ok(filled)
}

// The members of a struct.
#[cycle(filling)]
fn members(
    alloc: Global,
    constant: bool,
    items: &[Init],
    at: usize,
    first: Option<Valued>,
    ty: TypeId,
    names: &mut Names,
    types: &mut TypeTable,
) -> Result<Filled, Stop>
    requires known { IsKnownEnv types.old names.old }
    requires type_known { IsKnown types.old ty }
    requires is { shape_of types.old ty ≡ shape.Struct }
    requires begun { IsBegun types.old first }
    requires low { at < length items.now }
    ensures ok { IfOk result (MembersAre types.new constant names.old first items.now at ty names.new) }
    ensures out { IfErr result (MembersStop types.new constant names.old first items.now at ty) }
    ensures grows { Grows types.old types.new }
{
    types.is_table();
    let mut begun = first;
    let mut filled = Filled::new(alloc, at);
    let count = count_of(types, ty);
    let mut done = 0;
    while done < count && filled.next < items.len() {
        let member = member_type(types, ty, done);
        let part = part(
            alloc,
            constant,
            items,
            filled.next,
            begun.take(),
            member,
            names,
            types,
        )?;
        filled.join(part)?;
        done += 1;
    }
    Ok(filled)
}

// What items in braces fill: the parts of a type, or a type without parts by one value.
#[cycle(filling)]
fn in_braces(
    alloc: Global,
    constant: bool,
    place: Place,
    items: &[Init],
    ty: TypeId,
    names: &mut Names,
    types: &mut TypeTable,
) -> Result<Filled, Stop>
    requires known { IsKnownEnv types.old names.old }
    requires type_known { IsKnown types.old ty }
    ensures ok { IfOk result (BracesAre types.new constant names.old items.now ty names.new) }
    ensures out { IfErr result (BracesStop types.new constant names.old place items.now ty) }
    ensures grows { Grows types.old types.new }
{
    types.is_table();
    if items.is_empty() {
        return Err(out(324, place));
    }
    if has_parts(shaped(types, ty).shape) {
        return parts(alloc, constant, items, 0, None, ty, names, types);
    }
    match &items[0] {
        Init::Braces { .. } => {
            surplus(alloc, constant, items, names, types)?;
            Err(out(324, place))
        }
        Init::Value(e) => {
            let valued = value(alloc, constant, e, names, types)?;
            Ok(whole(alloc, 1, ty, valued, types)?)
        }
    }
}

/// A list in braces that fills a type: 311, 324, 333, and those of its items.
#[cycle(filling)]
pub(crate) fn list(
    alloc: Global,
    constant: bool,
    place: Place,
    items: &[Init],
    ty: TypeId,
    names: &mut Names,
    types: &mut TypeTable,
) -> Result<Listed, Stop>
    requires known { IsKnownEnv types.old names.old }
    requires type_known { IsKnown types.old ty }
    ensures ok { IfOk result (ListIs types.new constant names.old place items.now ty names.new) }
    ensures out { IfErr result (ListStops types.new constant names.old place items.now ty) }
    ensures grows { Grows types.old types.new }
{
    let filled = in_braces(alloc, constant, place, items, ty, names, types)?;
    surplus(alloc, constant, &items[filled.next..], names, types)?;
    let left = filled.next < items.len();
    if let Some(code) = filled.tally.list_broken(left) {
        return Err(out(code, place));
    }
    let tree = fill(ty, place, filled.trees);
    Ok(Listed {
        tree,
        varies: filled.tally.varies,
    })
}

// A value for which nothing is left to fill.
fn alone(
    alloc: Global,
    constant: bool,
    e: &Expr,
    names: &mut Names,
    types: &mut TypeTable,
) -> Result<(), Stop>
    requires known { IsKnownEnv types.old names.old }
    ensures ok { OnOk result (AloneIs types.new constant names.old e.now names.new) }
    ensures out { IfErr result (ValueStops types.new constant names.old e.now) }
    ensures grows { Grows types.old types.new }
{
    let _valued = value(alloc, constant, e, names, types)?;
    Ok(())
}

// Items for which nothing is left to fill, which are typed all the same.
fn surplus(
    alloc: Global,
    constant: bool,
    items: &[Init],
    names: &mut Names,
    types: &mut TypeTable,
) -> Result<(), Stop>
    requires known { IsKnownEnv types.old names.old }
    ensures ok { OnOk result (SurplusIs types.new constant names.old items.now names.new) }
    ensures out { IfErr result (SurplusStops types.new constant names.old items.now) }
    ensures grows { Grows types.old types.new }
{
    types.is_table();
    for item in items {
        match item {
            Init::Braces { items: inside, .. } => surplus(alloc, constant, inside, names, types)?,
            Init::Value(e) => alone(alloc, constant, e, names, types)?,
        }
    }
    Ok(())
}
