//! What tests of whole texts share.

use cl_lexer::lex;
use cl_parse::parse;
use cl_pre::expand;
use cl_tree::Tree;
use cl_typing::type_unit;
use clv_place::Stop;
use std::alloc::Global;

/// The tree of a text, or its first offence.
pub(crate) fn verdict(alloc: Global, text: &[u8]) -> Result<Tree, Stop> {
    let tokens = lex(alloc, text)?;
    let expanded = expand(alloc, &tokens)?;
    let ast = parse(alloc, &expanded)?;
    type_unit(alloc, &ast)
}
