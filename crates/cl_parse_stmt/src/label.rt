//! Labels of a `switch`.

ghost use Rattle.std.specs.Prelude.{◌≡◌, ◌<◌, length, IfOk, IfErr};
ghost use Rattle.cl_grammar.specs.Items.{EndsIn, RefusedAt};
ghost use Rattle.cl_grammar.specs.StatementSymbols.{Label as LabelSym, Sections};
ghost use Rattle.cl_grammar.specs.StatementTrees.{LabelTree};
ghost use Rattle.cl_grammar.specs.Symbols.{S};
ghost use Rattle.cl_parse_stmt.specs.Looks.{LabelAt};
ghost use Rattle.cl_parse_stmt.specs.Readings.{Has, HasLabels};

use crate::look::begins_label;
use cl_ast::statement::Label;
use cl_grammar::{ExprStop, Terminal};
use cl_parse_expr::Reader;
use std::alloc::Global;

// `"case" cond ":" | "default" ":"`
fn label(alloc: Global, reader: &Reader, at: usize) -> Result<(Label, usize), ExprStop>
    requires ends { EndsIn reader.now }
    requires within { at < length reader.now }
    requires begins { LabelAt reader.now at }
    ensures ok { IfOk result (λ r. Has LabelTree (S LabelSym) reader.now at r.1 r.0) }
    ensures out { IfErr result (RefusedAt (S LabelSym) reader.now at) }
{
    let place = reader.place(at);
    if reader.is_at(at, Terminal::Case) {
        let here = reader.expect(at, Terminal::Case)?;
        let taken = reader.cond(alloc, here)?;
        let next = reader.expect(taken.next, Terminal::Colon)?;
        Ok((
            Label {
                place,
                value: Some(taken.tree),
            },
            next,
        ))
    } else {
        let then = reader.expect(at, Terminal::Default)?;
        let behind = reader.expect(then, Terminal::Colon)?;
        Ok((Label { place, value: None }, behind))
    }
}

// `label {label}`: all labels that stand together, behind which items and more sections may stand.
#[tactic(none)]
pub fn labels(alloc: Global, reader: &Reader, at: usize) -> Result<(Vec<Label>, usize), ExprStop>
    requires ends { EndsIn reader.now }
    requires within { at < length reader.now }
    requires begins { LabelAt reader.now at }
    ensures ok { IfOk result (λ r. HasLabels reader.now at r.1 r.0.items) }
    ensures out { IfErr result (RefusedAt (S Sections) reader.now at) }
{
    let mut labels = Vec::new(alloc);
    let (first, mut here) = label(alloc, reader, at)?;
    labels.push(first)?;
    while begins_label(reader, here) {
        let (another, behind) = label(alloc, reader, here)?;
        labels.push(another)?;
        here = behind;
    }
    Ok((labels, here))
}
