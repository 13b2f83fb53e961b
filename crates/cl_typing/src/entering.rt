//! Where the parts of a statement begin: a block, the body of a loop, the sections of a `switch`.

ghost use Rattle.std.specs.Prelude.{◌≡◌, true, length};
ghost use Rattle.cl_builtins.specs.Found.{IsKnown};
ghost use Rattle.cl_builtins.specs.Kinds.{is_gentype};
ghost use Rattle.cl_make.specs.Ready.{IsReady};
ghost use Rattle.cl_scope.specs.Names.{entered};
ghost use Rattle.cl_scope.specs.Scopes.{IsKnownEnv};
ghost use Rattle.cl_typing.specs.Settings.{in_loop};
ghost use Rattle.cl_typing.specs.Statements.{tested_first};

use crate::label::Tested;
use crate::setting::Setting;
use cl_make::Typed;
use cl_scope::Names;
use cl_types::TypeTable;
use std::alloc::Global;

// Enters a block, and answers the mark by which it is left.
pub(crate) fn enter(names: &mut Names, types: &TypeTable) -> usize
    requires { IsKnownEnv types.now names.old }
    ensures block { names.new ≡ entered names.old }
    ensures mark { result ≡ length names.old.outer }
    ensures known { IsKnownEnv types.now names.new }
{
    types.is_table();
    names.enter()
}

// The body of a loop that stands here.
pub(crate) fn looped(p: Setting, types: &TypeTable) -> Setting
    requires { IsKnown types.now p.result }
    ensures is { result ≡ in_loop p }
    ensures known { IsKnown types.now result.result }
{
    types.is_table();
    p.in_loop()
}

// Before the first section of a `switch` that tests this.
pub(crate) fn first_tested(alloc: Global, typed: &Typed, types: &TypeTable) -> Tested
    requires { IsReady types.now typed.now }
    ensures is { result ≡ tested_first typed.now.operand.shape }
    ensures kind { is_gentype result.of ≡ true }
{
    types.is_table();
    Tested::first(alloc, typed.operand.shape)
}
