//! Lists that say the length of their array.

ghost use Rattle.std.specs.Prelude.{◌≡◌, IfOk, IfErr};
ghost use Rattle.cl_builtins.specs.Found.{IsKnown};
ghost use Rattle.cl_make.specs.Ready.{Grows};
ghost use Rattle.cl_scope.specs.Scopes.{IsKnownEnv};
ghost use Rattle.cl_variables.specs.Answers.{AllAre, AllStop, OpenListIs, OpenListStops};

use crate::filling::{Filled, part};
use crate::valued::out;
use cl_ast::declaration::Init;
use cl_scope::Names;
use cl_tree::TExpr;
use cl_types::{TypeId, TypeTable};
use clv_place::{Place, Stop};
use std::alloc::Global;

/// A list in braces that says how many elements its array has: their trees, their number, and whether a value isn't
/// constant though it must be.
#[derive(Drop)]
pub(crate) struct Opened {
    pub(crate) trees: Vec<TExpr>,
    pub(crate) count: usize,
    pub(crate) varies: bool,
}

// What all items fill, and how many elements they do.
fn all(
    alloc: Global,
    constant: bool,
    items: &[Init],
    elem: TypeId,
    names: &mut Names,
    types: &mut TypeTable,
) -> Result<(Filled, usize), Stop>
    requires known { IsKnownEnv types.old names.old }
    requires type_known { IsKnown types.old elem }
    ensures ok { IfOk result (AllAre types.new constant names.old items.now elem names.new) }
    ensures out { IfErr result (AllStop types.new constant names.old items.now elem) }
    ensures grows { Grows types.old types.new }
{
    types.is_table();
    let mut filled = Filled::new(alloc, 0);
    let mut count = 0;
    while filled.next < items.len() {
        let part = part(
            alloc,
            constant,
            items,
            filled.next,
            None,
            elem,
            names,
            types,
        )?;
        filled.join(part)?;
        count += 1;
    }
    Ok((filled, count))
}

/// A list in braces of elements of a type, as many as its items fill (C99, 6.7.8): 311, 333, and those of its items;
/// 324 where it has none.
pub(crate) fn open_list(
    alloc: Global,
    constant: bool,
    place: Place,
    items: &[Init],
    elem: TypeId,
    names: &mut Names,
    types: &mut TypeTable,
) -> Result<Opened, Stop>
    requires known { IsKnownEnv types.old names.old }
    requires type_known { IsKnown types.old elem }
    ensures ok { IfOk result (OpenListIs types.new constant names.old items.now elem names.new) }
    ensures out { IfErr result (OpenListStops types.new constant names.old place items.now elem) }
    ensures grows { Grows types.old types.new }
{
    types.is_table();
    if items.is_empty() {
        return Err(out(324, place));
    }
    let (filled, count) = all(alloc, constant, items, elem, names, types)?;
    if let Some(code) = filled.tally.list_broken(false) {
        return Err(out(code, place));
    }
    Ok(Opened {
        trees: filled.trees,
        count,
        varies: filled.tally.varies,
    })
}
