//! What the next token begins.

ghost use Rattle.std.specs.Prelude.{◌≡◌, ◌<◌, length, MatchBool};
ghost use Rattle.cl_grammar.specs.Items.{IsAt, OtherAt};
ghost use Rattle.cl_grammar.specs.declared.terminal.Terminal.TheVariants.{Else};
ghost use Rattle.cl_parse_stmt.specs.Looks.{TypeAt, NoTypeAt, LabelAt, NoLabelAt, ItemsEndAt, MoreItemsAt, KindAt, is_label, is_items_end, kind_of};

use cl_grammar::Terminal;
use cl_parse_expr::Reader;

/// What a statement is by its first token.
#[derive(Clone, Copy, PartialEq, Eq, Debug)]
pub enum Kind {
    Block,
    If,
    While,
    For,
    Do,
    Switch,
    Break,
    Continue,
    Return,
    /// An expression, or nothing, before the `;`.
    Expression,
}

fn kind_of(terminal: Terminal) -> Kind
    ensures { result ≡ kind_of terminal }
{
    match terminal {
        Terminal::OpenBrace => Kind::Block,
        Terminal::If => Kind::If,
        Terminal::While => Kind::While,
        Terminal::For => Kind::For,
        Terminal::Do => Kind::Do,
        Terminal::Switch => Kind::Switch,
        Terminal::Break => Kind::Break,
        Terminal::Continue => Kind::Continue,
        Terminal::Return => Kind::Return,
        _ => Kind::Expression,
    }
}

/// The kind of the statement that the token at an index begins, where it begins one.
#[tactic(auto, using(crate::proofs::Looking::kind_there))]
pub fn kind_at(reader: &Reader, at: usize) -> Kind
    requires { at < length reader.now }
    ensures { KindAt reader.now at result }
{
    kind_of(reader.peek(at))
}

/// Whether a declaration begins at an index.
#[tactic(auto, using(crate::proofs::Looking::type_there))]
pub fn begins_type(reader: &Reader, at: usize) -> bool
    requires { at < length reader.now }
    ensures { MatchBool result (TypeAt reader.now at) (NoTypeAt reader.now at) }
{
    reader.peek(at).begins_type()
}

fn is_label(terminal: Terminal) -> bool
    ensures { result ≡ is_label terminal }
{
    match terminal {
        Terminal::Case | Terminal::Default => true,
        _ => false,
    }
}

/// Whether a label begins at an index.
#[tactic(auto, using(crate::proofs::Looking::label_there))]
pub fn begins_label(reader: &Reader, at: usize) -> bool
    requires { at < length reader.now }
    ensures { MatchBool result (LabelAt reader.now at) (NoLabelAt reader.now at) }
{
    is_label(reader.peek(at))
}

fn is_items_end(terminal: Terminal) -> bool
    ensures { result ≡ is_items_end terminal }
{
    match terminal {
        Terminal::CloseBrace | Terminal::Case | Terminal::Default => true,
        _ => false,
    }
}

/// Whether the token at an index ends the items of a block or of a section.
#[tactic(auto, using(crate::proofs::Looking::end_there))]
pub fn ends_items(reader: &Reader, at: usize) -> bool
    requires { at < length reader.now }
    ensures { MatchBool result (ItemsEndAt reader.now at) (MoreItemsAt reader.now at) }
{
    is_items_end(reader.peek(at))
}

/// Whether an `else` stands at an index.
pub fn begins_else(reader: &Reader, at: usize) -> bool
    requires { at < length reader.now }
    ensures { MatchBool result (IsAt reader.now at Else) (OtherAt reader.now at Else) }
{
    reader.is_at(at, Terminal::Else)
}
