//! Parameters of a function.

ghost use Rattle.std.specs.Prelude.{◌≡◌, ◌<◌, ◌+◌, ◌&&◌, true, length, IfOk, IfErr, MatchBool};
ghost use Rattle.cl_grammar.specs.DeclarationSymbols.{NextParam, Params};
ghost use Rattle.cl_grammar.specs.Symbols.{D, is_some};
ghost use Rattle.cl_grammar.specs.Items.{EndsIn, RefusedAt};
ghost use Rattle.cl_parse.specs.Readings.{ParamAt, ParamRefusedAt, ParamsAt, ParamListAt, VoidAloneAt, NoVoidAloneAt};

use cl_ast::declaration::Param;
use cl_grammar::{ExprStop, Terminal};
use cl_parse_expr::Reader;
use std::alloc::Global;

// Parameters, whether each has a name, and the index of the token behind them.
#[derive(Drop)]
pub struct ParamList {
    pub list: Vec<Param>,
    pub named: bool,
    pub next: usize,
}

// `spec ["*" {pq}] [NAME]`
fn param(alloc: Global, reader: &Reader, at: usize) -> Result<(Param, usize), ExprStop>
    requires ends { EndsIn reader.now }
    requires within { at < length reader.now }
    ensures ok { IfOk result (λ t. ParamAt reader.now at t.1 t.0) }
    ensures out { IfErr result (ParamRefusedAt reader.now at) }
{
    let words = reader.spec(alloc, at)?;
    let (star, next) = reader.star(alloc, words.next)?;
    if reader.is_at(next, Terminal::Name) {
        let name = Some(reader.text(alloc, next)?);
        let place = reader.place(next);
        let spec = words.spec;
        Ok((
            Param {
                spec,
                star,
                name,
                place,
            },
            next + 1,
        ))
    } else {
        let place = reader.place(at);
        let spec = words.spec;
        Ok((
            Param {
                spec,
                star,
                name: None,
                place,
            },
            next,
        ))
    }
}

fn has_name(param: &Param) -> bool
    ensures { result ≡ is_some param.now.name }
{
    match param.name {
        Some(_) => true,
        None => false,
    }
}

// Whether both hold. A function, so that what its callers prove has no branch for `&&`.
pub fn both(a: bool, b: bool) -> bool
    ensures { result ≡ (a && b) }
{
    a && b
}

// `param {"," param}`
fn some_params(alloc: Global, reader: &Reader, at: usize) -> Result<ParamList, ExprStop>
    requires ends { EndsIn reader.now }
    requires within { at < length reader.now }
    ensures ok { IfOk result (λ t. ParamsAt reader.now at t.next t.list.items t.named) }
    ensures out { IfErr result (RefusedAt (D (NextParam true)) reader.now at) }
{
    let mut list = Vec::new(alloc);
    let (first, mut here) = param(alloc, reader, at)?;
    let mut named = has_name(&first);
    list.push(first)?;
    while reader.is_at(here, Terminal::Comma) {
        let (another, next) = param(alloc, reader, here + 1)?;
        named = both(named, has_name(&another));
        list.push(another)?;
        here = next;
    }
    Ok(ParamList {
        list,
        named,
        next: here,
    })
}

// Whether `void` alone stands before the `)`.
fn is_void_alone(reader: &Reader, at: usize) -> bool
    requires ends { EndsIn reader.now }
    requires within { at < length reader.now }
    ensures { MatchBool result (VoidAloneAt reader.now at) (NoVoidAloneAt reader.now at) }
{
    reader.is_at(at, Terminal::Void) && reader.is_at(at + 1, Terminal::CloseParen)
}

// `["void"] | param {"," param}`, behind the `(` of a function: `(void)` holds no parameter.
pub fn params(alloc: Global, reader: &Reader, at: usize) -> Result<ParamList, ExprStop>
    requires ends { EndsIn reader.now }
    requires within { at < length reader.now }
    ensures ok { IfOk result (λ t. ParamListAt reader.now at t.next t.list.items t.named) }
    ensures out { IfErr result (RefusedAt (D Params) reader.now at) }
{
    if reader.is_at(at, Terminal::CloseParen) {
        Ok(ParamList {
            list: Vec::new(alloc),
            named: true,
            next: at,
        })
    } else if is_void_alone(reader, at) {
        Ok(ParamList {
            list: Vec::new(alloc),
            named: true,
            next: at + 1,
        })
    } else {
        some_params(alloc, reader, at)
    }
}
