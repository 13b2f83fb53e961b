//! What the operands of an instruction may be, given its words.

ghost use Rattle.std.specs.Prelude.{◌≡◌, ◌+◌, ◌-◌, ◌%◌, ◌<◌, ◌≤◌, ◌==◌, IsTrue, length, drop, slice_index, map, take};
ghost use Rattle.std.specs.Option.{option_copied};
ghost use Rattle.spv_binary.specs.Faults.{width as width_of, behind as words_behind, fills as filled, string_len as len_of_string};
ghost use Rattle.spv_binary.specs.Kinds.{kind_of, fixed_kinds, tail_kinds, shape_kinds, shape_of_form, tail_at, decoration_of as decoration_at, literals as literals_of, slot_kinds as kinds_of_slots, with_results, tail_fits, tail_kind, kind_at, IsShapeOf, behind_all as behind_all_of};

use crate::kind::{Kind, Set, slot_kind};
use crate::string::string_len;
use spv_module::enumerant::decoration;
use spv_module::{Form, Last, form, op};

/// What the operands of an instruction may be.
#[derive(Clone, Copy, PartialEq, Eq, Debug)]
pub struct Shape {
    /// Those that always stand, results first. From `count` on they are fillers.
    pub kinds: [Kind; 8],
    /// How many always stand.
    pub count: usize,
    /// What may follow them.
    pub tail: Tail,
}

/// What may follow the operands that always stand. Each takes one word.
#[derive(Clone, Copy, PartialEq, Eq, Debug)]
pub enum Tail {
    /// Nothing.
    Nothing,
    /// A literal word or nothing.
    MaybeWord,
    /// One literal word.
    OneWord,
    /// One enumerant.
    OneOf(Set),
    /// Any number of literal words.
    Words,
    /// Any number of ids.
    Ids,
    /// Any number of pairs of a literal word and an id.
    Pairs,
}

impl Tail {
    /// Whether so many words can follow.
    fn fits(self, left: usize) -> bool
        ensures { result ≡ tail_fits self left }
    {
        match self {
            Tail::Nothing => left == 0,
            Tail::MaybeWord => left <= 1,
            Tail::OneWord => left == 1,
            Tail::OneOf(_) => left == 1,
            Tail::Words => true,
            Tail::Ids => true,
            Tail::Pairs => left % 2 == 0,
        }
    }

    /// What the one at an index from 0 may be.
    fn kind(self, at: usize) -> Kind
        ensures { result ≡ tail_kind self at }
    {
        match self {
            Tail::Nothing => Kind::Word,
            Tail::MaybeWord => Kind::Word,
            Tail::OneWord => Kind::Word,
            Tail::OneOf(set) => Kind::OneOf(set),
            Tail::Words => Kind::Word,
            Tail::Ids => Kind::Id,
            Tail::Pairs => { if at % 2 == 0 { Kind::Word } else { Kind::Id } }
        }
    }
}

impl Shape {
    /// The operands that always stand.
    fn fixed(&self) -> &[Kind]
        requires { self.now.count ≤ 8 }
        ensures { result.now ≡ take self.now.count self.now.kinds }
    {
        &self.kinds[..self.count]
    }

    /// What the operand at an index from 0 may be.
    pub fn kind(&self, at: usize) -> Kind
        requires { self.now.count ≤ 8 }
        ensures { result ≡ kind_at self.now at }
    {
        if at < self.count {
            self.kinds[at]
        } else {
            self.tail.kind(at - self.count)
        }
    }

    /// Whether the operands take these words, no fewer and no more.
    #[tactic(auto, using(crate::proofs::Shapes::fits_steps))]
    pub fn fits(&self, words: &[u32]) -> bool
        requires { self.now.count ≤ 8 }
        ensures { result ≡ filled (shape_kinds self.now words.now) words.now }
    {
        match behind_all(self.fixed(), words) {
            Some(rest) => self.tail.fits(rest.len()),
            None => false,
        }
    }
}

/// The words behind the first so many.
pub fn behind(words: &[u32], count: usize) -> &[u32]
    requires { count ≤ length words.now }
    ensures { result.now ≡ drop count words.now }
{
    &words[count..]
}

/// How many words an operand of this kind takes, where these words begin with it.
pub fn width(kind: Kind, words: &[u32]) -> usize
    ensures { result ≡ width_of (kind_of kind) words.now }
{
    match kind {
        Kind::Id => 1,
        Kind::Word => 1,
        Kind::OneOf(_) => 1,
        Kind::Str => string_len(words),
    }
}

/// The words behind operands of these kinds, and none where the words are too few.
#[tactic(auto, using(crate::proofs::Shapes::behind_steps))]
fn behind_all<'a>(kinds: &[Kind], words: &'a [u32]) -> Option<&'a [u32]>
    ensures { option_copied result ≡ behind_all_of (map kind_of kinds.now) words.now }
{
    let mut rest = words;
    for kind in kinds {
        if rest.is_empty() {
            return None;
        }
        rest = behind(rest, width(*kind, rest));
    }
    Some(rest)
}

/// What the operands of an instruction with this opcode may be, whose words behind the first are
/// these. None exactly where the compiler knows no such instruction.
#[tactic(auto, using(crate::proofs::Table::shapes))]
pub fn shape_of(op: u16, words: &[u32]) -> Option<Shape>
    ensures { IsShapeOf op words.now result }
{
    let form = form(op)?;
    Some(form_shape(op, words, form))
}

fn form_shape(op: u16, words: &[u32], form: Form) -> Shape
    ensures { result ≡ shape_of_form op words.now form }
{
    Shape {
        kinds: fixed_kinds(op, form),
        count: usize::from(form.typed) + usize::from(form.makes) + usize::from(form.count),
        tail: tail_of(op, form.last, words),
    }
}

/// The operands that always stand, and fillers.
fn fixed_kinds(op: u16, form: Form) -> [Kind; 8]
    ensures { result ≡ with_results form.typed form.makes (kinds_of_slots op 0 form.slots) }
{
    let [a, b, c, d, e, f] = slot_kinds(op, form);
    match (form.typed, form.makes) {
        (true, true) => [Kind::Id, Kind::Id, a, b, c, d, e, f],
        (false, false) => [a, b, c, d, e, f, Kind::Id, Kind::Id],
        _ => [Kind::Id, a, b, c, d, e, f, Kind::Id],
    }
}

fn slot_kinds(op: u16, form: Form) -> [Kind; 6]
    ensures { result ≡ kinds_of_slots op 0 form.slots }
{
    let [a, b, c, d, e, f] = form.slots;
    [
        slot_kind(op, 0, a),
        slot_kind(op, 1, b),
        slot_kind(op, 2, c),
        slot_kind(op, 3, d),
        slot_kind(op, 4, e),
        slot_kind(op, 5, f),
    ]
}

/// What may follow them: behind a decoration its literals.
fn tail_of(op: u16, last: Last, words: &[u32]) -> Tail
    ensures { result ≡ tail_at (decoration_at op words.now) last }
{
    match decoration_of(op, words) {
        Some(number) => literals(number),
        None => match last {
            Last::Nothing => Tail::Nothing,
            Last::OneWord => Tail::MaybeWord,
            Last::Words => Tail::Words,
            Last::Ids => Tail::Ids,
            Last::Pairs => Tail::Pairs,
        },
    }
}

/// The number of the decoration, if the instruction has one.
#[tactic(auto, unfolding(crate::specs::Kinds::decoration_of))]
fn decoration_of(op: u16, words: &[u32]) -> Option<u32>
    ensures { result ≡ decoration_at op words.now }
{
    match op {
        op::DECORATE => words.get(1).copied(),
        op::MEMBER_DECORATE => words.get(2).copied(),
        _ => None,
    }
}

/// The literals behind each decoration that the compiler knows (SPIR-V 3.20).
static LITERALS: [(u32, Tail); 10] = [
    (decoration::SPEC_ID, Tail::OneWord),
    (decoration::BLOCK, Tail::Nothing),
    (decoration::ARRAY_STRIDE, Tail::OneWord),
    (decoration::BUILT_IN, Tail::OneOf(Set::BuiltIns)),
    (decoration::RESTRICT, Tail::Nothing),
    (decoration::ALIASED, Tail::Nothing),
    (decoration::NON_WRITABLE, Tail::Nothing),
    (decoration::BINDING, Tail::OneWord),
    (decoration::DESCRIPTOR_SET, Tail::OneWord),
    (decoration::OFFSET, Tail::OneWord),
];

/// The literals behind a decoration: any number behind one that the compiler doesn't know.
#[tactic(auto, unfolding(crate::specs::Kinds::literals))]
fn literals(number: u32) -> Tail
    ensures { result ≡ literals_of number }
{
    LITERALS
        .iter()
        .find(|row| row.0 == number)
        .map(|row| row.1)
        .unwrap_or(Tail::Words)
}
