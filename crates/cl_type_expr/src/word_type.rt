//! The words of types, without what stands in a struct's braces.

ghost use Rattle.std.specs.Prelude.{◌≡◌, true, is_some, option_copied, Some, None, IfOk, IfErr, OnOk};
ghost use Rattle.cl_ast.specs.declared.expression.Base.TheVariants as base;
ghost use Rattle.cl_builtins.specs.Found.{IsKnown};
ghost use Rattle.cl_make.specs.Ready.{Grows};
ghost use Rattle.cl_scope.specs.Scopes.{IsKnownEnv};
ghost use Rattle.cl_words.specs.Words.{word_shape, name_or_none};
ghost use Rattle.cl_type_expr.specs.Expressions.{tag_of, tagged, is_tag_again, is_type_name};
ghost use Rattle.cl_type_expr.specs.Typing.{BaseIs, BaseStops, AreReadyMembers, StructIs, StructStops};

use crate::members::Members;
use crate::node::out;
use cl_ast::expression::Base;
use cl_make::{of_shape, shaped};
use cl_rules::{Qualified, Target};
use cl_scope::{Declared, DeclaredKind, Names};
use cl_types::{ClType, Space, TypeId, TypeStop, TypeTable};
use cl_words::{is_sized, named_type, plain, word_shape};
use clv_place::{NoMemory, Place, Stop, Text};
use std::alloc::Global;

// A word that names a type by itself.
pub(crate) fn word(word: &Base, names: &Names, types: &mut TypeTable) -> Result<Qualified, Stop>
    requires known { IsKnownEnv types.old names.now }
    requires is { is_some (word_shape word.now) ≡ true }
    ensures ok { IfOk result (BaseIs types.new names.now word.now names.now) }
    ensures out { IfErr result (BaseStops types.new names.now word.now) }
    ensures grows { Grows types.old types.new }
{
    match word_shape(word) {
        Some(shape) => {
            let ty = of_shape(shape, types)?;
            Ok(plain(Target { ty, shape }, is_sized(word)))
        }
        None => unreachable!(),
    }
}

// A typedef's name: 301 where it is none.
pub(crate) fn typedef(
    word: &Base,
    name: &[u8],
    place: Place,
    names: &Names,
    types: &TypeTable,
) -> Result<Qualified, Stop>
    requires known { IsKnownEnv types.now names.now }
    requires is { word.now ≡ base.Named name.now place }
    ensures ok { IfOk result (BaseIs types.now names.now word.now names.now) }
    ensures out { IfErr result (BaseStops types.now names.now word.now) }
{
    types.is_table();
    match names.find(name) {
        None => Err(out(301, place)),
        Some(declared) => {
            if !is_typedef(declared.kind) {
                return Err(out(301, place));
            }
            let target = shaped(types, declared.ty);
            Ok(named_type(target, declared.readonly, declared.space))
        }
    }
}

fn is_typedef(kind: DeclaredKind) -> bool
    ensures { result ≡ is_type_name kind }
{
    match kind {
        DeclaredKind::Typedef => true,
        _ => false,
    }
}

// The struct of a tag.
fn tag_of<'a>(names: &'a Names, name: &Option<Text>) -> Option<&'a Declared>
    ensures { option_copied result ≡ tag_of names.now name.now }
{
    match name {
        Some(name) => names.find_tag(name.as_slice()),
        None => None,
    }
}

// A struct by its tag: 305 where it is unknown or not complete.
pub(crate) fn struct_tag(
    word: &Base,
    name: &Option<Text>,
    place: Place,
    names: &Names,
    types: &TypeTable,
) -> Result<Qualified, Stop>
    requires known { IsKnownEnv types.now names.now }
    requires is { word.now ≡ base.Struct name.now place None }
    ensures ok { IfOk result (BaseIs types.now names.now word.now names.now) }
    ensures out { IfErr result (BaseStops types.now names.now word.now) }
{
    types.is_table();
    match tag_of(names, name) {
        None => Err(out(305, place)),
        Some(declared) => {
            if !declared.complete {
                return Err(out(305, place));
            }
            Ok(plain(shaped(types, declared.ty), false))
        }
    }
}

// Declares a tag, where a struct has one.
pub(crate) fn tagged(
    alloc: Global,
    name: &Option<Text>,
    ty: TypeId,
    complete: bool,
    names: &mut Names,
) -> Result<(), NoMemory>
    ensures { OnOk result (names.new ≡ tagged name.now ty complete names.old) }
{
    match name {
        None => Ok(()),
        Some(name) => {
            let name = Text::from_bytes(alloc, name.as_slice())?;
            names.declare(Declared {
                name,
                ty,
                space: Space::Private,
                readonly: false,
                kind: DeclaredKind::Tag,
                complete,
            })
        }
    }
}

// Whether the innermost block has a struct of the tag already.
pub(crate) fn is_tag_again(names: &Names, name: &Option<Text>) -> bool
    ensures { result ≡ is_tag_again names.now name.now }
{
    match name {
        Some(name) => names.is_tagged(name.as_slice()),
        None => false,
    }
}

// The name of a struct in the table, which is empty where it has none.
fn name_or_none(alloc: Global, name: &Option<Text>) -> Result<Text, NoMemory>
    ensures { IfOk result (λ t. t ≡ name_or_none name.now) }
{
    match name {
        Some(name) => Text::from_bytes(alloc, name.as_slice()),
        None => Text::from_bytes(alloc, &[]),
    }
}

// The type of a struct: 302, 303, 501, 502.
pub(crate) fn struct_type(
    alloc: Global,
    name: &Option<Text>,
    place: Place,
    again: bool,
    members: &Members,
    types: &mut TypeTable,
) -> Result<TypeId, Stop>
    requires ready { AreReadyMembers types.old members.now }
    ensures ok { IfOk result (StructIs types.new name.now again members.now) }
    ensures out { IfErr result (StructStops types.new place again members.now) }
    ensures grows { Grows types.old types.new }
{
    types.is_table();
    if again {
        return Err(out(302, place));
    }
    if members.is_empty() {
        return Err(out(303, place));
    }
    let name = name_or_none(alloc, name)?;
    let members = members.list(alloc)?;
    match types.intern(ClType::Struct { name, members }) {
        Ok(ty) => {
            types.is_table();
            Ok(ty)
        }
        Err(TypeStop::TooLarge) => Err(out(501, place)),
        Err(TypeStop::TooDeep) => Err(out(502, place)),
        Err(TypeStop::NoMemory) => Err(Stop::NoMemory),
    }
}
