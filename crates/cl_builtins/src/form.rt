//! Which types of arguments each built-in function takes, and what it answers.

ghost use Rattle.std.specs.Prelude.{◌≡◌, ℕ, ◌<◌, ◌++◌, ◌∷◌, [], replicate, Some, IfOk, OnOk};
ghost use Rattle.std.specs.List.{list_all};
ghost use Rattle.cl_builtins.specs.Kinds.{is_scalar, is_type, converts};
ghost use Rattle.cl_builtins.specs.Forms.{operand, is_operand, usual_with, usual_of, common_at, common, type_of, these, of_type, only, alike_form, unsigned_form, narrow_form, has_limits, limited, one_number, doubled, upsampled, upsample, selected, selection, bits_of, reads_as, converted, reread, tested, vector_of, loaded, is_constant, stored, is_shared, atomic, form_of};

use crate::kind::{Gentype, Kind};
use crate::name::Rule;
use cl_types::Space;
use clv_place::{List, NoMemory};
use std::alloc::Global;

/// How arguments fit a built-in function: the types of its parameters, and the type of its result.
#[derive(Drop)]
pub struct Form {
    pub params: List<Kind>,
    pub result: Kind,
}

impl Kind {
    /// Whether it is bool or an integer scalar.
    pub fn is_scalar(self) -> bool
        ensures { result ≡ is_scalar self }
    {
        match self {
            Kind::Bool => true,
            Kind::Integers(t) => t.count == 1,
            _ => false,
        }
    }

    /// Whether it is this integer type.
    pub fn is_type(self, t: Gentype) -> bool
        ensures { result ≡ is_type t self }
    {
        match self {
            Kind::Integers(own) => t.is_same(own),
            _ => false,
        }
    }

    /// Whether an argument of this type converts to an integer type: a scalar to each, any other to its
    /// own alone (OpenCL C 1.2, 6.2.1 and 6.2.2).
    pub fn converts(self, to: Gentype) -> bool
        ensures { result ≡ converts to self }
    {
        self.is_scalar() || self.is_type(to)
    }

    // The integer type that an argument stands for: a bool for an int.
    fn operand(self) -> Option<Gentype>
        ensures { result ≡ operand self }
    {
        match self {
            Kind::Bool => Some(Gentype::int()),
            Kind::Integers(t) => Some(t),
            _ => None,
        }
    }

    fn is_operand(self, t: Gentype) -> bool
        ensures { result ≡ is_operand t self }
    {
        match self.operand() {
            Some(own) => t.is_same(own),
            None => false,
        }
    }

    fn usual_with(self, t: Gentype) -> Gentype
        ensures { result ≡ usual_with t self }
    {
        match self.operand() {
            Some(own) => t.usual(own),
            None => t,
        }
    }
}

fn are_operands(args: &[Kind], t: Gentype) -> bool
    ensures { result ≡ list_all (is_operand t) args.now }
{
    for arg in args {
        if !arg.is_operand(t) {
            return false;
        }
    }
    true
}

fn are_scalars(args: &[Kind]) -> bool
    ensures { result ≡ list_all is_scalar args.now }
{
    for arg in args {
        if !arg.is_scalar() {
            return false;
        }
    }
    true
}

fn are_of_type(args: &[Kind], t: Gentype) -> bool
    ensures { result ≡ list_all (is_type t) args.now }
{
    for arg in args {
        if !arg.is_type(t) {
            return false;
        }
    }
    true
}

fn all_convert(args: &[Kind], to: Gentype) -> bool
    ensures { result ≡ list_all (converts to) args.now }
{
    for arg in args {
        if !arg.converts(to) {
            return false;
        }
    }
    true
}

// The type to which the usual arithmetic conversions bring scalars.
fn usual_of(args: &[Kind]) -> Gentype
    ensures { result ≡ usual_of args.now }
{
    let mut usual = Gentype::int();
    for arg in args {
        usual = arg.usual_with(usual);
    }
    usual
}

// The type that arguments have together, by the one that the first stands for.
fn common_at(first: Option<Gentype>, args: &[Kind]) -> Option<Gentype>
    ensures { result ≡ common_at first args.now }
{
    let t = first?;
    if are_operands(args, t) {
        Some(t)
    } else if are_scalars(args) {
        Some(usual_of(args))
    } else {
        None
    }
}

fn common(args: &[Kind]) -> Option<Gentype>
    ensures { result ≡ common args.now }
{
    match args {
        [] => None,
        [first, ..] => common_at(first.operand(), args),
    }
}

// The type that arguments have together, where they are so many.
fn type_of(count: u8, args: &[Kind]) -> Option<Gentype>
    ensures { result ≡ type_of count args.now }
{
    if args.len() == count as usize {
        common(args)
    } else {
        None
    }
}

fn list(alloc: Global, kinds: &[Kind]) -> Result<List<Kind>, NoMemory>
    ensures { IfOk result (λ l. l ≡ kinds.now) }
{
    let mut list = List::new(alloc);
    for kind in kinds {
        list.push(*kind)?;
    }
    Ok(list)
}

fn push_copies(list: &mut List<Kind>, kind: Kind, count: u8) -> Result<(), NoMemory>
    ensures { OnOk result (list.new ≡ list.old ++ replicate count kind) }
{
    for _copy in 0..count {
        list.push(kind)?;
    }
    Ok(())
}

// The form of these types, where it fits.
fn only(alloc: Global, fits: bool, params: &[Kind], gives: Kind) -> Result<Option<Form>, NoMemory>
    ensures { IfOk result (λ f. f ≡ only fits (these params.now gives)) }
{
    if !fits {
        return Ok(None);
    }
    let params = list(alloc, params)?;
    Ok(Some(Form {
        params,
        result: gives,
    }))
}

// So many arguments of one type.
fn of_type(alloc: Global, count: u8, t: Gentype, gives: Gentype) -> Result<Option<Form>, NoMemory>
    ensures { IfOk result (λ f. f ≡ Some (of_type count t gives)) }
{
    let mut params = List::new(alloc);
    push_copies(&mut params, Kind::Integers(t), count)?;
    Ok(Some(Form {
        params,
        result: Kind::Integers(gives),
    }))
}

fn alike_form(alloc: Global, count: u8, t: Option<Gentype>) -> Result<Option<Form>, NoMemory>
    ensures { IfOk result (λ f. f ≡ alike_form count t) }
{
    match t {
        Some(t) => of_type(alloc, count, t, t),
        None => Ok(None),
    }
}

fn unsigned_form(alloc: Global, count: u8, t: Option<Gentype>) -> Result<Option<Form>, NoMemory>
    ensures { IfOk result (λ f. f ≡ unsigned_form count t) }
{
    match t {
        Some(t) => of_type(alloc, count, t, t.unsigned()),
        None => Ok(None),
    }
}

fn narrow_form(alloc: Global, count: u8, t: Option<Gentype>) -> Result<Option<Form>, NoMemory>
    ensures { IfOk result (λ f. f ≡ narrow_form count t) }
{
    match t {
        Some(t) => {
            if t.bits == 32 {
                of_type(alloc, count, t, t)
            } else {
                Ok(None)
            }
        }
        None => Ok(None),
    }
}

// Whether a vector stands before scalars of its components' type, so many in all.
fn has_limits(count: u8, t: Gentype, limits: &[Kind]) -> bool
    ensures { result ≡ has_limits count t limits.now }
{
    t.count != 1 && limits.len() + 1 == count as usize && are_of_type(limits, t.element())
}

fn limited(alloc: Global, count: u8, args: &[Kind]) -> Result<Option<Form>, NoMemory>
    ensures { IfOk result (λ f. f ≡ limited count args.now) }
{
    match args {
        [Kind::Integers(t), limits @ ..] => {
            if has_limits(count, *t, limits) {
                only(alloc, true, args, Kind::Integers(*t))
            } else {
                alike_form(alloc, count, type_of(count, args))
            }
        }
        _ => alike_form(alloc, count, type_of(count, args)),
    }
}

// One argument that converts to a uint.
fn one_number(alloc: Global, args: &[Kind], gives: Kind) -> Result<Option<Form>, NoMemory>
    ensures { IfOk result (λ f. f ≡ one_number args.now gives) }
{
    let uint = Gentype::uint();
    match args {
        [number] => only(alloc, number.converts(uint), &[Kind::Integers(uint)], gives),
        _ => Ok(None),
    }
}

fn doubled(t: Gentype) -> Gentype
    requires { t.bits < 64 }
    ensures { result ≡ doubled t }
{
    Gentype {
        bits: 2 * t.bits,
        ..t
    }
}

fn upsampled(alloc: Global, t: Option<Gentype>, low: Kind) -> Result<Option<Form>, NoMemory>
    ensures { IfOk result (λ f. f ≡ upsampled t low) }
{
    match t {
        Some(t) => {
            if t.bits >= 64 {
                return Ok(None);
            }
            let params = [Kind::Integers(t), Kind::Integers(t.unsigned())];
            only(
                alloc,
                low.converts(t.unsigned()),
                &params,
                Kind::Integers(doubled(t)),
            )
        }
        None => Ok(None),
    }
}

fn upsample(alloc: Global, args: &[Kind]) -> Result<Option<Form>, NoMemory>
    ensures { IfOk result (λ f. f ≡ upsample args.now) }
{
    match args {
        [high, low] => upsampled(alloc, high.operand(), *low),
        _ => Ok(None),
    }
}

fn selected(alloc: Global, t: Option<Gentype>, by: Gentype) -> Result<Option<Form>, NoMemory>
    ensures { IfOk result (λ f. f ≡ selected t by) }
{
    match t {
        Some(t) => only(
            alloc,
            by.bits == t.bits && by.count == t.count,
            &[Kind::Integers(t), Kind::Integers(t), Kind::Integers(by)],
            Kind::Integers(t),
        ),
        None => Ok(None),
    }
}

// The bits of a type: a vector of three components has the room of four.
fn room(t: Gentype) -> u16
    ensures { result ≡ bits_of t }
{
    let count = if t.count == 3 { 4 } else { t.count };
    count as u16 * t.bits as u16
}

// Whether the bits of a type may be read as another: there are as many, and none of them is unused before
// and used then.
fn reads_as(t: Gentype, to: Gentype) -> bool
    ensures { result ≡ reads_as t to }
{
    room(t) == room(to) && (t.count != 3 || to.count == 3)
}

fn is_shared(space: Space) -> bool
    ensures { result ≡ is_shared space }
{
    match space {
        Space::Global | Space::Local => true,
        _ => false,
    }
}

fn is_constant(space: Space) -> bool
    ensures { result ≡ is_constant space }
{
    match space {
        Space::Constant => true,
        _ => false,
    }
}

// `convert_R` of a value with as many components.
fn converted(alloc: Global, to: Gentype, args: &[Kind]) -> Result<Option<Form>, NoMemory>
    ensures { IfOk result (λ f. f ≡ converted to args.now) }
{
    match args {
        [Kind::Integers(t)] => only(
            alloc,
            t.count == to.count,
            &[Kind::Integers(*t)],
            Kind::Integers(to),
        ),
        _ => Ok(None),
    }
}

// `as_R`.
fn reread(alloc: Global, to: Gentype, args: &[Kind]) -> Result<Option<Form>, NoMemory>
    ensures { IfOk result (λ f. f ≡ reread to args.now) }
{
    match args {
        [Kind::Integers(t)] => only(
            alloc,
            reads_as(*t, to),
            &[Kind::Integers(*t)],
            Kind::Integers(to),
        ),
        _ => Ok(None),
    }
}

fn selection(alloc: Global, args: &[Kind]) -> Result<Option<Form>, NoMemory>
    ensures { IfOk result (λ f. f ≡ selection args.now) }
{
    match args {
        [first, second, Kind::Integers(by)] => { selected(alloc, common(&[*first, *second]), *by) }
        _ => Ok(None),
    }
}

// `any` and `all`.
fn tested(alloc: Global, args: &[Kind]) -> Result<Option<Form>, NoMemory>
    ensures { IfOk result (λ f. f ≡ tested args.now) }
{
    match args {
        [Kind::Integers(t)] => only(
            alloc,
            t.signed,
            &[Kind::Integers(*t)],
            Kind::Integers(Gentype::int()),
        ),
        _ => Ok(None),
    }
}

fn vector(t: Gentype, count: u8) -> Kind
    ensures { result ≡ vector_of t count }
{
    Kind::Integers(Gentype { count, ..t })
}

fn loaded(alloc: Global, count: u8, args: &[Kind]) -> Result<Option<Form>, NoMemory>
    ensures { IfOk result (λ f. f ≡ loaded count args.now) }
{
    let uint = Gentype::uint();
    match args {
        [at, Kind::Pointer { to, .. }] => only(
            alloc,
            at.converts(uint),
            &[Kind::Integers(uint), args[1]],
            vector(*to, count),
        ),
        _ => Ok(None),
    }
}

fn stored(alloc: Global, count: u8, args: &[Kind]) -> Result<Option<Form>, NoMemory>
    ensures { IfOk result (λ f. f ≡ stored count args.now) }
{
    let uint = Gentype::uint();
    match args {
        [
            value,
            at,
            Kind::Pointer {
                space,
                readonly,
                to,
                ..
            },
        ] => {
            let written = Gentype { count, ..*to };
            let fits = !*readonly
                && !is_constant(*space)
                && value.converts(written)
                && at.converts(uint);
            let params = [Kind::Integers(written), Kind::Integers(uint), args[2]];
            only(alloc, fits, &params, Kind::Void)
        }
        _ => Ok(None),
    }
}

// A pointer, and so many values for what it leads to.
fn atomic(alloc: Global, count: u8, args: &[Kind]) -> Result<Option<Form>, NoMemory>
    ensures { IfOk result (λ f. f ≡ atomic count args.now) }
{
    match args {
        [
            Kind::Pointer {
                space,
                readonly,
                to,
                ..
            },
            values @ ..,
        ] => {
            let fits = is_shared(*space)
                && !*readonly
                && to.bits == 32
                && values.len() == count as usize
                && all_convert(values, *to);
            if !fits {
                return Ok(None);
            }
            let mut params = List::new(alloc);
            params.push(args[0])?;
            push_copies(&mut params, Kind::Integers(*to), count)?;
            Ok(Some(Form {
                params,
                result: Kind::Integers(*to),
            }))
        }
        _ => Ok(None),
    }
}

impl Rule {
    /// The form in which arguments of these types fit the rule, and none where they don't.
    pub fn form(self, alloc: Global, args: &[Kind]) -> Result<Option<Form>, NoMemory>
        ensures { IfOk result (λ f. f ≡ form_of self args.now) }
    {
        match self {
            Rule::Nothing => only(alloc, args.is_empty(), &[], Kind::Integers(Gentype::uint())),
            Rule::Dimension => one_number(alloc, args, Kind::Integers(Gentype::uint())),
            Rule::Fence => one_number(alloc, args, Kind::Void),
            Rule::Alike(count) => alike_form(alloc, count, type_of(count, args)),
            Rule::Unsigned(count) => unsigned_form(alloc, count, type_of(count, args)),
            Rule::Narrow(count) => narrow_form(alloc, count, type_of(count, args)),
            Rule::Limited(count) => limited(alloc, count, args),
            Rule::Upsample => upsample(alloc, args),
            Rule::Convert(to) => converted(alloc, to, args),
            Rule::Reread(to) => reread(alloc, to, args),
            Rule::Select => selection(alloc, args),
            Rule::Test => tested(alloc, args),
            Rule::Load(count) => loaded(alloc, count, args),
            Rule::Store(count) => stored(alloc, count, args),
            Rule::Atomic(count) => atomic(alloc, count, args),
        }
    }
}
