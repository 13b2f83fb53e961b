//! Sums of numbers, and names, with the conversions that C asks for.

ghost use Rattle.std.specs.Prelude.{◌≡◌, [], ◌∷◌, true, IfOk};
ghost use Rattle.cl_builtins.specs.Kinds.{is_gentype};

use cl_builtins::Gentype;
use cl_make::{Typed, converted, given, head_of, made, named, number, of_shape, shaped, wanted};
use cl_rules::{Head, Judged, Want, binary};
use cl_scope::scope::{Declared, DeclaredKind};
use cl_tree::{Shape, TExpr, TNode};
use cl_types::{BinOp, Space, TypeTable};
use clv_place::{NoMemory, Place, Text};
use std::alloc::Global;
use std::test::Fail;

const CHAR: Gentype = Gentype {
    bits: 8,
    signed: true,
    count: 1,
};

const INT: Gentype = Gentype {
    bits: 32,
    signed: true,
    count: 1,
};

const LONG: Gentype = Gentype {
    bits: 64,
    signed: true,
    count: 1,
};

const PLACE: Place = Place { line: 1, col: 1 };

fn is_conversion(e: &TExpr) -> bool {
    match &e.node {
        TNode::Convert(_) => true,
        _ => false,
    }
}

// Whether the operand of an operator at an index is a conversion.
fn converts(e: &TExpr, at: usize) -> bool {
    match &e.node {
        TNode::Binary { args, .. } => match args.get(at) {
            Some(arg) => is_conversion(arg),
            None => false,
        },
        _ => false,
    }
}

fn bits(s: Shape) -> u8 {
    match s {
        Shape::Integers(t) => t.bits,
        _ => 0,
    }
}

fn two(alloc: Global, left: Typed, right: Typed) -> Result<Vec<Typed>, NoMemory>
    ensures { IfOk result (λ rs. rs.items ≡ left ∷ right ∷ []) }
{
    let mut operands = Vec::new(alloc);
    operands.push(left)?;
    operands.push(right)?;
    Ok(operands)
}

// The bits of the sum of two numbers, and whether they were converted.
fn sum(alloc: Global, left: Gentype, right: Gentype) -> Result<(u8, bool, bool), NoMemory>
    requires left { is_gentype left ≡ true }
    requires right { is_gentype right ≡ true }
{
    let mut types = TypeTable::new(alloc)?;
    let a = number(left, 1, PLACE, &mut types)?;
    let b = number(right, 2, PLACE, &mut types)?;
    match binary(alloc, BinOp::Add, a.operand, b.operand)? {
        Judged::Makes(m) => {
            let operands = two(alloc, a, b)?;
            let sum = made(alloc, m, PLACE, operands, &mut types)?;
            Ok((
                bits(sum.operand.shape),
                converts(&sum.tree, 0),
                converts(&sum.tree, 1),
            ))
        }
        Judged::Broken(_) => Err(NoMemory),
    }
}

#[test]
fn operands_are_converted_where_they_have_to_be(rt: HostRuntime) -> Result<(), Fail> {
    assert_eq!(rt; sum(rt.alloc(), INT, CHAR)?, (32, false, true));
    assert_eq!(rt; sum(rt.alloc(), CHAR, INT)?, (32, true, false));
    assert_eq!(rt; sum(rt.alloc(), CHAR, CHAR)?, (32, true, true));
    assert_eq!(rt; sum(rt.alloc(), INT, INT)?, (32, false, false));
    assert_eq!(rt; sum(rt.alloc(), INT, LONG)?, (64, true, false));
    Ok(())
}

// The pattern of a number, and whether it is converted to `bool`.
fn cut(alloc: Global, t: Gentype, n: u64) -> Result<(u64, bool), NoMemory>
    requires { is_gentype t ≡ true }
{
    let mut types = TypeTable::new(alloc)?;
    let typed = number(t, n, PLACE, &mut types)?;
    let pattern = match &typed.tree.node {
        TNode::Number(bits) => bits.value,
        _ => 0,
    };
    let tree = converted(alloc, Want::Of(Shape::Bool), typed, &mut types)?;
    Ok((pattern, is_conversion(&tree)))
}

#[test]
fn numbers_are_cut_to_their_width(rt: HostRuntime) -> Result<(), Fail> {
    assert_eq!(rt; cut(rt.alloc(), CHAR, 300)?, (44, true));
    assert_eq!(rt; cut(rt.alloc(), INT, 300)?, (300, true));
    assert_eq!(rt; cut(rt.alloc(), LONG, u64::MAX)?, (u64::MAX, true));
    Ok(())
}

// The number that the name of a variable has in the tree, and its shape and its address space.
fn name(alloc: Global, space: Space) -> Result<(u32, Shape, Option<Space>), NoMemory> {
    let mut types = TypeTable::new(alloc)?;
    let ty = of_shape(Shape::Bool, &mut types)?;
    let own = wanted(Want::Own, ty, &mut types)?;
    let gives = given(Want::Type(own), &mut types)?;
    let d = Declared {
        name: Text::from_bytes(alloc, b"b")?,
        ty: gives,
        space,
        readonly: false,
        kind: DeclaredKind::Var(7),
        complete: true,
    };
    let typed = named(
        alloc,
        &d,
        head_of(d.kind).unwrap_or(Head::Comma),
        PLACE,
        &types,
    );
    let k = match typed.tree.node {
        TNode::Var(k) => k,
        _ => 0,
    };
    Ok((k, shaped(&types, gives).shape, typed.operand.facts.lies))
}

#[test]
fn names_are_places(rt: HostRuntime) -> Result<(), Fail> {
    assert_eq!(rt;
        name(rt.alloc(), Space::Local)?,
        (7, Shape::Bool, Some(Space::Local))
    );
    Ok(())
}
