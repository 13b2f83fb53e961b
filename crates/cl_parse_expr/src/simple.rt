//! Parts of types in which no expression stands.

ghost use Rattle.std.specs.Prelude.{◌≡◌, ◌<◌, ◌≤◌, ◌+◌, ◌^◌, [], ◌∷◌, not, length, true, false, Option, Some, None, IfOk, IfErr, MatchBool, MatchOption};
ghost use Rattle.cl_grammar.specs.Symbols as sym;
ghost use Rattle.cl_grammar.specs.Symbols.{E};
ghost use Rattle.cl_grammar.specs.Terminals.{qualifier_of, pointer_qualifier_of};
ghost use Rattle.cl_grammar.specs.ExpressionTrees.{StarOf, IntegerOf, BaseTree, PrimaryTree};
ghost use Rattle.cl_grammar.specs.Items.{between, EndsIn, IsAt, OtherAt, GoesOn, ReadAt, NoneAt, RefusedAt, BarredAt};
ghost use Rattle.cl_parse_expr.specs.Reading.{is_suffix_mark, Qualified, WordAt, NoWordAt, BeginsTyped, BeginsUntyped, SignedFrom, HasWidth, WidthFrom, BeginsStruct, NoStructAt, TagAt, MemberAt, NoMemberAt, HeadAt, TermFrom, PrefixedAt, SuffixAt, NoSuffixAt, IndexedAt, SuffixFrom, CallAt, NoCallAt};
ghost use Rattle.cl_grammar.specs.declared.stop.ExprStop.TheVariants.{Out, NoMemory as WantOfMemory};
ghost use Rattle.cl_grammar.specs.declared.terminal.Terminal.TheVariants.{Name, OpenBracket, OpenParen, Struct};

use crate::expression::{Operands, SpecRead, Taken};
use crate::grouping::{one, two};
use crate::reader::Reader;
use cl_ast::expression::{Base, Expr, ExprNode, Qual, TypeTerm};
use cl_grammar::{ExprStop, Terminal};
use cl_types::UnOp;
use clv_place::{List, NoMemory, Place, Text};
use std::alloc::Global;

/// The greatest number of members of a struct.
pub(crate) const MAX_MEMBERS: usize = 65500;

/// What a type is without its qualifiers, whether it is a vector, and the index of the token behind it.
#[derive(Drop)]
pub(crate) struct BaseRead {
    pub(crate) base: Base,
    pub(crate) vector: bool,
    pub(crate) next: usize,
}

/// The name of a type, whether it is a vector, and the index of the token behind it.
#[derive(Drop)]
pub(crate) struct TermRead {
    pub(crate) term: TypeTerm,
    pub(crate) vector: bool,
    pub(crate) next: usize,
}

/// The name of a struct, if any, its place, and the index of the `{` behind it.
#[derive(Drop)]
pub(crate) struct Tag {
    pub(crate) name: Option<Text>,
    pub(crate) place: Place,
    pub(crate) brace: usize,
}

/// A declared name with its `*`, and the index of the token behind it.
#[derive(Drop)]
pub(crate) struct Head {
    pub(crate) star: Option<List<Qual>>,
    pub(crate) name: Text,
    pub(crate) place: Place,
    pub(crate) next: usize,
}

/// All operands in a list.
pub(crate) fn listed(alloc: Global, operands: Operands) -> Result<Vec<Expr>, NoMemory>
    ensures { IfOk result (λ args. args.items ≡ operands.first ∷ operands.others.items) }
{
    let mut args = one(alloc, operands.first)?;
    for other in operands.others {
        args.push(other)?;
    }
    Ok(args)
}

// Whether this mark goes on with an operand.
fn goes_on_with_operand(mark: Terminal) -> bool
    ensures { result ≡ is_suffix_mark mark }
{
    match mark {
        Terminal::OpenBracket | Terminal::Dot | Terminal::Arrow => true,
        Terminal::Increment | Terminal::Decrement => true,
        _ => false,
    }
}

/// A whole type by one word, and whether it is a vector.
#[derive(Drop)]
pub(crate) struct WordRead {
    pub(crate) base: Base,
    pub(crate) vector: bool,
}

impl<'a> Reader<'a> {
    // Adds the qualifiers of a type to these, and answers the index behind them.
    pub(crate) fn qualifiers(&self, quals: &mut List<Qual>, at: usize) -> Result<usize, NoMemory>
        requires ends { EndsIn self.now }
        requires within { at < length self.now }
        ensures read { IfOk result (λ next. ReadAt (E sym.Qualifiers) self.now at next) }
        ensures quals { IfOk result (λ next. Qualified qualifier_of self.now at next quals.old quals.new) }
    {
        let mut here = at;
        while let Some(qualifier) = self.peek(here).qualifier() {
            quals.push(qualifier)?;
            here += 1;
        }
        Ok(here)
    }

    /// The words behind a `*`, if one stands at an index, and the index behind them.
    pub fn star(&self, alloc: Global, at: usize) -> Result<(Option<List<Qual>>, usize), NoMemory>
        requires ends { EndsIn self.now }
        requires within { at < length self.now }
        ensures read { IfOk result (λ t. ReadAt (E sym.MayStar) self.now at t.1) }
        ensures tree { IfOk result (λ t. StarOf (between self.now at t.1) t.0) }
    {
        if !self.is_at(at, Terminal::Star) {
            return Ok((None, at));
        }
        let mut quals = List::new(alloc);
        let next = self.pointer_qualifiers(&mut quals, at + 1)?;
        Ok((Some(quals), next))
    }

    fn pointer_qualifiers(&self, quals: &mut List<Qual>, at: usize) -> Result<usize, NoMemory>
        requires ends { EndsIn self.now }
        requires within { at < length self.now }
        ensures read { IfOk result (λ next. ReadAt (E sym.PointerQualifiers) self.now at next) }
        ensures quals { IfOk result (λ next. Qualified pointer_qualifier_of self.now at next quals.old quals.new) }
    {
        let mut here = at;
        while let Some(qualifier) = self.peek(here).pointer_qualifier() {
            quals.push(qualifier)?;
            here += 1;
        }
        Ok(here)
    }

    // The whole type that the word at an index is, if any.
    pub(crate) fn word(&self, alloc: Global, at: usize) -> Result<Option<WordRead>, NoMemory>
        requires within { at < length self.now }
        ensures { IfOk result (λ w. MatchOption w (NoWordAt self.now at) (λ word. WordAt self.now at word.vector word.base)) }
    {
        let (base, vector) = match self.peek(at) {
            Terminal::Void => (Base::Void, false),
            Terminal::Bool => (Base::Bool, false),
            Terminal::UnsignedInt { bits } => {
                let signed = false;
                (Base::Int { bits, signed }, false)
            }
            Terminal::Sized { signed } => (Base::Sized { signed }, false),
            Terminal::Vector { bits, signed, n } => (Base::Vector { bits, signed, n }, true),
            Terminal::TypeName { vector } => {
                let name = self.text(alloc, at)?;
                let place = self.place(at);
                (Base::Named { name, place }, vector)
            }
            _ => return Ok(None),
        };
        Ok(Some(WordRead { base, vector }))
    }

    /// Whether an expression at an index would begin with a type in brackets.
    pub fn begins_type_in_brackets(&self, at: usize) -> bool
        requires ends { EndsIn self.now }
        requires within { at < length self.now }
        ensures stands { MatchBool result (BeginsTyped self.now at) (BeginsUntyped self.now at) }
        ensures room { length self.now < 2 ^ 63 }
    {
        self.is_at(at, Terminal::OpenParen) && self.peek(at + 1).begins_type()
    }

    /// An integer type by its words.
    pub fn integer(&self, at: usize) -> Result<(Base, usize), ExprStop>
        requires ends { EndsIn self.now }
        requires within { at < length self.now }
        ensures read { IfOk result (λ t. ReadAt (E sym.Integer) self.now at t.1) }
        ensures forth { IfOk result (λ t. at < t.1) }
        ensures tree { IfOk result (λ t. IntegerOf (between self.now at t.1) t.0) }
        ensures out { IfErr result (RefusedAt (E sym.Integer) self.now at) }
        ensures here { IfErr result (λ e. e ≡ Out at) }
    {
        match self.peek(at).sign() {
            Some(signed) => Ok(self.behind_sign(signed, at + 1)),
            None => match self.peek(at).width() {
                Some(bits) => Ok((Base::Int { bits, signed: true }, self.behind_width(at))),
                None => Err(ExprStop::Out { at }),
            },
        }
    }

    fn behind_sign(&self, signed: bool, at: usize) -> (Base, usize)
        requires ends { EndsIn self.now }
        requires within { at < length self.now }
        ensures read { ReadAt (E sym.MayWidth) self.now at result.1 }
        ensures tree { SignedFrom self.now at result.1 signed result.0 }
    {
        match self.peek(at).width() {
            Some(bits) => (Base::Int { bits, signed }, self.behind_width(at)),
            None => (Base::Int { bits: 32, signed }, at),
        }
    }

    fn behind_width(&self, at: usize) -> usize
        requires ends { EndsIn self.now }
        requires within { at < length self.now }
        requires width { HasWidth self.now at }
        ensures read { ReadAt (E sym.Width) self.now at result }
        ensures forth { at < result }
        ensures tree { WidthFrom self.now at result }
    {
        if self.peek(at).takes_int() && self.is_at(at + 1, Terminal::Int) {
            at + 2
        } else {
            at + 1
        }
    }

    // A type that has no members here: a word, an integer type, or the name of a struct.
    pub(crate) fn base(&self, alloc: Global, at: usize) -> Result<BaseRead, ExprStop>
        requires ends { EndsIn self.now }
        requires within { at < length self.now }
        requires other { NoStructAt self.now at }
        ensures read { IfOk result (λ t. ReadAt (E (sym.Base t.vector)) self.now at t.next) }
        ensures forth { IfOk result (λ t. at < t.next) }
        ensures tree { IfOk result (λ t. BaseTree (between self.now at t.next) t.base) }
        ensures none { IfOk result (λ t. NoneAt (E (sym.Base (not t.vector))) self.now at t.next) }
        ensures barred { IfErr result (BarredAt (E (sym.Base true)) self.now at) }
        ensures out { IfErr result (RefusedAt (E (sym.Base false)) self.now at) }
    {
        let vector = false;
        if self.is_at(at, Terminal::Struct) {
            let (base, next) = self.struct_name(alloc, at)?;
            return Ok(BaseRead { base, vector, next });
        }
        if let Some(word) = self.word(alloc, at)? {
            return Ok(BaseRead {
                base: word.base,
                vector: word.vector,
                next: at + 1,
            });
        }
        let (base, next) = self.integer(at)?;
        Ok(BaseRead { base, vector, next })
    }

    // The name of a struct without its members.
    fn struct_name(&self, alloc: Global, at: usize) -> Result<(Base, usize), ExprStop>
        requires ends { EndsIn self.now }
        requires begins { IsAt self.now at Struct }
        requires other { NoStructAt self.now at }
        ensures read { IfOk result (λ t. ReadAt (E (sym.Base false)) self.now at t.1) }
        ensures forth { IfOk result (λ t. at < t.1) }
        ensures tree { IfOk result (λ t. BaseTree (between self.now at t.1) t.0) }
        ensures out { IfErr result (RefusedAt (E (sym.Base false)) self.now at) }
    {
        // The number of the tokens that are read is below 2^63, so what stands behind one has an index.
        let _ = &self.lexemes;
        let behind = at + 1;
        if !self.is_at(behind, Terminal::Name) {
            return Err(ExprStop::Out { at: behind });
        }
        let name = self.text(alloc, behind)?;
        let place = self.place(behind);
        let base = Base::Struct {
            name: Some(name),
            place,
            members: None,
        };
        Ok((base, at + 2))
    }

    // Whether a struct with members begins at an index.
    pub(crate) fn begins_struct(&self, at: usize) -> bool
        requires ends { EndsIn self.now }
        requires within { at < length self.now }
        ensures stands { MatchBool result (BeginsStruct self.now at) (NoStructAt self.now at) }
        ensures room { length self.now < 2 ^ 63 }
    {
        if !self.is_at(at, Terminal::Struct) {
            return false;
        }
        if self.is_at(at + 1, Terminal::Name) {
            return self.is_at(at + 2, Terminal::OpenBrace);
        }
        self.is_at(at + 1, Terminal::OpenBrace)
    }

    // The name of a struct, if any, and where its members begin.
    #[tactic(auto, using(crate::proofs::Nodes::nodes))]
    pub(crate) fn tag(&self, alloc: Global, at: usize) -> Result<Tag, NoMemory>
        requires ends { EndsIn self.now }
        requires within { at < length self.now }
        requires begins { BeginsStruct self.now at }
        ensures { IfOk result (TagAt self.now at) }
    {
        // The number of the tokens that are read is below 2^63, so what stands behind one has an index.
        let _ = &self.lexemes;
        if self.is_at(at + 1, Terminal::OpenBrace) {
            return Ok(Tag {
                name: None,
                place: self.place(at),
                brace: at + 1,
            });
        }
        let name = Some(self.text(alloc, at + 1)?);
        let place = self.place(at + 1);
        let brace = at + 2;
        Ok(Tag { name, place, brace })
    }

    // Whether another member may follow where there is room, and one begins.
    #[tactic(auto, using(crate::proofs::Nodes::nodes))]
    pub(crate) fn goes_on(&self, at: usize, room: usize) -> bool
        requires within { at < length self.now }
        ensures { MatchBool result (MemberAt self.now at room) (NoMemberAt self.now at room) }
    {
        if room == 0 {
            return false;
        }
        self.peek(at).begins_type()
    }

    // A declared name with its `*`.
    #[tactic(auto, using(crate::proofs::Nodes::nodes))]
    pub(crate) fn head(&self, alloc: Global, at: usize) -> Result<Head, ExprStop>
        requires ends { EndsIn self.now }
        requires within { at < length self.now }
        ensures read { IfOk result (λ t. GoesOn (E sym.Declor) (E sym.Lengths ∷ []) self.now at t.next) }
        ensures forth { IfOk result (λ t. at < t.next) }
        ensures tree { IfOk result (HeadAt self.now at) }
        ensures out { IfErr result (RefusedAt (E sym.Declor) self.now at) }
    {
        let (star, here) = self.star(alloc, at)?;
        let next = self.expect(here, Terminal::Name)?;
        let name = self.text(alloc, here)?;
        let place = self.place(here);
        Ok(Head {
            star,
            name,
            place,
            next,
        })
    }

    // The name of a type by its words, with the words behind a `*` there.
    #[tactic(auto, using(crate::proofs::Nodes::nodes))]
    pub(crate) fn named_type(&self, alloc: Global, words: SpecRead) -> Result<TermRead, NoMemory>
        requires ends { EndsIn self.now }
        requires within { words.next < length self.now }
        ensures term { IfOk result (TermFrom self.now words) }
        ensures within { IfOk result (λ t. t.next < length self.now) }
        ensures forth { IfOk result (λ t. words.next ≤ t.next) }
    {
        let (star, next) = self.star(alloc, words.next)?;
        let vector = words.vector && star.is_none();
        Ok(TermRead {
            term: TypeTerm {
                spec: words.spec,
                star,
            },
            vector,
            next,
        })
    }

    // The tree of an operator at an index before an operand.
    #[tactic(auto, using(crate::proofs::Nodes::nodes))]
    pub(crate) fn prefixed(
        &self,
        alloc: Global,
        op: UnOp,
        operand: Taken,
        at: usize,
    ) -> Result<Taken, ExprStop>
        requires within { at < length self.now }
        ensures tree { IfOk result (λ t. PrefixedAt self.now at op operand.tree t.tree) }
        ensures next { IfOk result (λ t. t.next ≡ operand.next) }
        ensures memory { IfErr result (λ e. e ≡ WantOfMemory) }
    {
        let place = self.place(at);
        let node = ExprNode::Unary(op);
        let args = one(alloc, operand.tree)?;
        Ok(Taken {
            tree: Expr { place, node, args },
            next: operand.next,
        })
    }

    // Whether something that goes on with an operand stands at an index.
    #[tactic(auto, using(crate::proofs::Nodes::nodes))]
    pub(crate) fn begins_suffix(&self, at: usize) -> bool
        requires within { at < length self.now }
        ensures { MatchBool result (SuffixAt self.now at) (NoSuffixAt self.now at) }
    {
        goes_on_with_operand(self.peek(at))
    }

    // The tree of an element at the index of a `[`.
    #[tactic(auto, using(crate::proofs::Nodes::nodes))]
    pub(crate) fn indexed(
        &self,
        alloc: Global,
        tree: Expr,
        index: Expr,
        at: usize,
    ) -> Result<Expr, NoMemory>
        requires within { at < length self.now }
        ensures { IfOk result (IndexedAt self.now at tree index) }
    {
        let place = self.place(at);
        let node = ExprNode::Index;
        let args = two(alloc, tree, index)?;
        Ok(Expr { place, node, args })
    }

    // An operand with the member or the increment behind it.
    #[tactic(auto, using(crate::proofs::Nodes::nodes))]
    pub(crate) fn suffixed(&self, alloc: Global, tree: Expr, at: usize) -> Result<Taken, ExprStop>
        requires ends { EndsIn self.now }
        requires within { at < length self.now }
        requires suffix { SuffixAt self.now at }
        requires other { OtherAt self.now at OpenBracket }
        ensures read { IfOk result (λ t. GoesOn (E sym.Suffixes) (E sym.Suffixes ∷ []) self.now at t.next) }
        ensures forth { IfOk result (λ t. at < t.next) }
        ensures tree { IfOk result (λ t. SuffixFrom self.now at t.next tree t.tree) }
        ensures out { IfErr result (RefusedAt (E sym.Suffixes) self.now at) }
    {
        let terminal = self.peek(at);
        let place = self.place(at);
        if let Some(arrow) = terminal.arrow() {
            let next = self.expect(at + 1, Terminal::Name)?;
            let name = self.text(alloc, at + 1)?;
            let node = ExprNode::Member { name, arrow };
            let args = one(alloc, tree)?;
            let tree = Expr { place, node, args };
            return Ok(Taken { tree, next });
        }
        let next = at + 1;
        let Some(op) = terminal.increment_behind() else {
            return Err(ExprStop::Out { at });
        };
        let node = ExprNode::Unary(op);
        let args = one(alloc, tree)?;
        let tree = Expr { place, node, args };
        Ok(Taken { tree, next })
    }

    // Whether a call with arguments begins at an index.
    #[tactic(auto, using(crate::proofs::Nodes::nodes))]
    pub(crate) fn begins_arguments(&self, at: usize) -> bool
        requires ends { EndsIn self.now }
        requires within { at < length self.now }
        ensures { MatchBool result (CallAt self.now at) (NoCallAt self.now at) }
    {
        if !self.is_at(at, Terminal::Name) {
            return false;
        }
        if !self.is_at(at + 1, Terminal::OpenParen) {
            return false;
        }
        !self.is_at(at + 2, Terminal::CloseParen)
    }

    // A name, a number, or a call without arguments.
    #[tactic(auto, using(crate::proofs::Nodes::nodes))]
    pub(crate) fn leaf(&self, alloc: Global, at: usize) -> Result<Taken, ExprStop>
        requires ends { EndsIn self.now }
        requires within { at < length self.now }
        requires other { OtherAt self.now at OpenParen }
        requires call { NoCallAt self.now at }
        ensures read { IfOk result (λ t. ReadAt (E sym.Primary) self.now at t.next) }
        ensures forth { IfOk result (λ t. at < t.next) }
        ensures tree { IfOk result (λ t. PrimaryTree (between self.now at t.next) t.tree) }
        ensures out { IfErr result (RefusedAt (E sym.Primary) self.now at) }
    {
        match self.peek(at) {
            Terminal::Name => Ok(self.name_or_empty_call(alloc, at)?),
            Terminal::Number { value, ty } => {
                let place = self.place(at);
                let node = ExprNode::Number { value, ty };
                let args = Vec::new(alloc);
                let tree = Expr { place, node, args };
                Ok(Taken { tree, next: at + 1 })
            }
            _ => Err(ExprStop::Out { at }),
        }
    }

    // A name, with the brackets of a call without arguments if they stand behind it.
    #[tactic(auto, using(crate::proofs::Nodes::nodes))]
    fn name_or_empty_call(&self, alloc: Global, at: usize) -> Result<Taken, NoMemory>
        requires ends { EndsIn self.now }
        requires name { IsAt self.now at Name }
        requires call { NoCallAt self.now at }
        ensures read { IfOk result (λ t. ReadAt (E sym.Primary) self.now at t.next) }
        ensures forth { IfOk result (λ t. at < t.next) }
        ensures tree { IfOk result (λ t. PrimaryTree (between self.now at t.next) t.tree) }
    {
        // The number of the tokens that are read is below 2^63, so what stands behind one has an index.
        let _ = &self.lexemes;
        let place = self.place(at);
        let name = self.text(alloc, at)?;
        let args = Vec::new(alloc);
        if self.is_at(at + 1, Terminal::OpenParen) {
            let node = ExprNode::Call(name);
            let tree = Expr { place, node, args };
            return Ok(Taken { tree, next: at + 3 });
        }
        let node = ExprNode::Name(name);
        let tree = Expr { place, node, args };
        Ok(Taken { tree, next: at + 1 })
    }
}
