//! The rules, row by row: what a node wants of its operands and gives, or the code of a rule that it breaks.

use cl_builtins::Gentype;
use cl_rules::{
    Judged, Operand, Qualified, Target, Want, assignment, binary, call_of, cast_rule, chosen,
    comma, indexed, literal, member, no_size, selection, size_broken, unary,
};
use cl_scope::scope::Signature;
use cl_tree::{Facts, Shape};
use cl_types::{BinOp, Member, Space, TypeId, UnOp};
use clv_place::{List, NoMemory, Text};
use std::alloc::Global;
use std::test::Fail;

// The types, each with its place here as its number: c char, s short, i int, l long, and as capitals their unsigned
// forms; xyz vectors of 2 to 4 ints, XYZ of uints; v void, b bool, t a struct; a an array of ints, A one of such
// arrays; pointers to int: p global, P to const, k constant, q private; r a global one to char.
const TYPES: [u8; 24] = *b"cCsSiIlLxyzXYZvbtaApPkqr";

// What an operator makes of its operands: the letters of what it wants of each (`.` for whichever type it has) and
// of what it gives, with where that lies if it is a place. An operand is the letter of its type, behind it where it
// lies: g global, k constant, l local, p private, as capitals if it is const, or c for a component.
const OPERATORS: &str = "ii <- - c
ii <- - C
II <- - I
xx <- - x
ll <- ~ l
ii <- ~ b
308 <- - p
308 <- ~ v
308 <- - t
.i <- ! b
.i <- ! L
308 <- ! x
.i@g <- * p
.i@g! <- * P
.i@k <- * k
.i@p <- * ap
.a@l! <- * AL
313 <- * i
313 <- * x
.q <- & ip
.p <- & ig
.P <- & iG
312 <- & i
312 <- & bp
312 <- & ap
312 <- & pp
312 <- & ic
.i <- ++ ip
.x <- ++ xg
.p <- ++ pp
310 <- ++ i
310 <- ++ iP
310 <- ++ ik
308 <- ++ tp
308 <- ++ t
- <- sizeof i
iii <- + c s
iii <- + C S
III <- + i I
lll <- + I l
LLL <- + l L
iii <- + b b
xxx <- + x x
xxx <- + x c
xxx <- + I x
xxx <- + b x
308 <- + x X
308 <- + x y
309 <- + x l
309 <- + L x
p.p <- + p i
.pp <- + i p
q.q <- + ap l
303 <- + Ap i
308 <- + p p
308 <- + p x
308 <- + t i
p.p <- - p b
ppi <- - p p
PPi <- - p P
308 <- - p q
308 <- - p r
308 <- - i p
303 <- - Ap Ap
ili <- << c l
LiL <- >> L c
x.x <- << x X
xxx <- >> x i
309 <- << x l
308 <- << x y
308 <- << i x
308 <- << p i
lli <- < c l
xxx <- < x x
XXx <- == X X
PPi <- < P p
qqi <- == ap q
308 <- == p q
308 <- < p i
309 <- == x L
..i <- && b l
308 <- && x x
308 <- && p i
iii <- ^ c c
308 <- ^ p i
.ii <- = ip c
.xx <- = xp c
.tt <- = tp t
.pp <- = pp p
.PP <- = Pp p
.qq <- = qp ap
310 <- = i i
310 <- = iP i
310 <- = ik p
311 <- = xp X
311 <- = ip x
311 <- = ip p
311 <- = pp i
333 <- = pp P
333 <- = pp q
333 <- = pp r
.li <- += ip l
..p <- += pp i
.lc <- <<= cp l
308 <- += pp p
309 <- += xp l
311 <- += ip x
310 <- += iP p
311 <- -= pp p
308 <- -= pp q
308 <- <= p i
.iii <- ? i c s
.PPP <- ? b p P
.ttt <- ? i t t
.vvv <- ? i v v
318 <- ? x i i
308 <- ? p p q
308 <- ? i p i
309 <- ? i x l
303 <- ? i Ap Ap
..i@g <- [ p i
..a@p <- [ Ap b
308 <- [ p x
313 <- [ i i
- <- [ x i
..c <- , i c
.qq <- , i ap
303 <- , i Ap
..t <- , v t";

// Which components a name selects of a vector of so many.
const SELECTIONS: &str = "01 <- 4 lo
23 <- 4 hi
02 <- 4 even
13 <- 4 odd
0 <- 2 lo
1 <- 2 hi
1 <- 2 odd
- <- 3 lo
0123 <- 4 xyzw
33 <- 4 ww
- <- 3 w
30 <- 4 s30
- <- 2 s2
- <- 4 s4
- <- 4 s
- <- 4 xyzwx
- <- 4 x0
- <- 4 rgba";

// Components of an operand, on the left of an assignment behind `=`, and members of a struct with the members `first`
// of type int and `second` of type int2.
const MEMBERS: &str = ".x@g <- zg yx
.x@g! <- zG zx
.i@g <- zg y
.z@g <- xg xxyy
307 <- zg =xx
.x@g <- zg =wx
307 <- xg z
307 <- xg first
.i@l <- tl first
.x@p! <- tP =second
306 <- tp x
306 <- i first";

// Casts: the letter of the type, behind it `*` or `r` for `restrict` where a pointer to it is meant, and the letter
// of an address space where one is named.
const CASTS: &str = ".i <- i l
.b <- b i
.x <- x i
.x <- x x
311 <- x X
311 <- x y
311 <- i x
311 <- c p
311 <- p i
303 <- v i
303 <- a i
.p <- p P
333 <- p q
326 <- ig i
.p <- i*g r
.q <- i* q
.q <- i* ap
333 <- i* p
333 <- c*g k
311 <- i*g i
303 <- v*g p
308 <- i i i";

const LITERALS: &str = "iiiiz <- z c b i l
..z <- z x x
.iiz <- z x i i
iz <- z l
331 <- z i i
331 <- z i i i i i
331 <- z x
311 <- z X x
311 <- z y p
303 <- i i
303 <- x* i i";

// Calls of a function with a char and a pointer to const as its parameters, which gives an int.
const CALLS: &str = "cPi <- i p
cPi <- b P
311 <- x p
315 <- c
315 <- c p c
333 <- c q";

fn integers(bits: u8, signed: bool, count: u8) -> Shape {
    Shape::Integers(Gentype {
        bits,
        signed,
        count,
    })
}

fn pointer(space: Space, to: u32, readonly: bool) -> Shape {
    Shape::Pointer {
        space,
        to: TypeId(to),
        readonly,
        restricted: false,
    }
}

fn array(elem: u32, nested: bool) -> Shape {
    Shape::Array {
        elem: TypeId(elem),
        len: 4,
        nested,
    }
}

fn number_shape(letter: u8) -> Option<Shape> {
    match letter {
        b'c' => Some(integers(8, true, 1)),
        b'C' => Some(integers(8, false, 1)),
        b's' => Some(integers(16, true, 1)),
        b'S' => Some(integers(16, false, 1)),
        b'i' => Some(integers(32, true, 1)),
        b'I' => Some(integers(32, false, 1)),
        b'l' => Some(integers(64, true, 1)),
        b'L' => Some(integers(64, false, 1)),
        _ => None,
    }
}

fn vector_shape(letter: u8) -> Option<Shape> {
    match letter {
        b'x' => Some(integers(32, true, 2)),
        b'y' => Some(integers(32, true, 3)),
        b'z' => Some(integers(32, true, 4)),
        b'X' => Some(integers(32, false, 2)),
        b'Y' => Some(integers(32, false, 3)),
        b'Z' => Some(integers(32, false, 4)),
        _ => number_shape(letter),
    }
}

fn shape(letter: u8) -> Shape {
    match letter {
        b'v' => Shape::Void,
        b'b' => Shape::Bool,
        b't' => Shape::Struct,
        b'a' => array(4, false),
        b'A' => array(17, true),
        b'p' => pointer(Space::Global, 4, false),
        b'P' => pointer(Space::Global, 4, true),
        b'k' => pointer(Space::Constant, 4, false),
        b'q' => pointer(Space::Private, 4, false),
        b'r' => pointer(Space::Global, 0, false),
        _ => vector_shape(letter).unwrap_or(Shape::Void),
    }
}

fn number(letter: u8) -> TypeId {
    for i in 0..24 {
        if TYPES[i] == letter {
            return TypeId(i as u32);
        }
    }
    TypeId(99)
}

fn space(letter: u8) -> Space {
    match letter.to_ascii_lowercase() {
        b'g' => Space::Global,
        b'k' => Space::Constant,
        b'l' => Space::Local,
        _ => Space::Private,
    }
}

fn operand(word: &[u8]) -> Operand {
    let (letter, lies) = match word {
        [letter] => (*letter, None),
        [letter, lies, ..] => (*letter, Some(*lies)),
        [] => (b'v', None),
    };
    Operand {
        facts: Facts {
            ty: number(letter),
            lies: lies.map(space),
            component: lies == Some(b'c'),
        },
        shape: shape(letter),
        readonly: match lies {
            Some(lies) => lies.is_ascii_uppercase(),
            None => false,
        },
        complete: true,
    }
}

fn operands(alloc: Global, words: &str) -> Result<List<Operand>, NoMemory> {
    let mut list = List::new(alloc);
    for word in words.split(' ') {
        list.push(operand(word.as_bytes()))?;
    }
    Ok(list)
}

fn qualified(word: &[u8]) -> (Qualified, Option<bool>) {
    let (letter, star, named) = match word {
        [letter, b'*', lies] => (*letter, Some(false), Some(*lies)),
        [letter, b'*'] => (*letter, Some(false), None),
        [letter, lies] => (*letter, None, Some(*lies)),
        [letter, ..] => (*letter, None, None),
        [] => (b'v', None, None),
    };
    let q = Qualified {
        ty: number(letter),
        shape: shape(letter),
        readonly: false,
        space: named.map(space),
        clash: false,
        sized: false,
    };
    (q, star)
}

fn unary_op(op: &str) -> Option<UnOp> {
    match op {
        "-" => Some(UnOp::Minus),
        "~" => Some(UnOp::Not),
        "!" => Some(UnOp::LogicalNot),
        "*" => Some(UnOp::Deref),
        "&" => Some(UnOp::Address),
        "++" => Some(UnOp::PostInc),
        _ => Some(UnOp::Sizeof),
    }
}

fn binary_op(op: &str) -> Option<BinOp> {
    match op {
        "+" => Some(BinOp::Add),
        "-" => Some(BinOp::Sub),
        "<<" => Some(BinOp::Shl),
        ">>" => Some(BinOp::Shr),
        "<" => Some(BinOp::Less),
        "<=" => Some(BinOp::LessEqual),
        "==" => Some(BinOp::Equal),
        "&&" => Some(BinOp::LogicalAnd),
        "^" => Some(BinOp::Xor),
        _ => None,
    }
}

fn between(alloc: Global, op: &str, a: Operand, b: Operand) -> Result<Option<Judged>, NoMemory> {
    if op == "[" {
        return indexed(alloc, a, b);
    }
    if op == "," {
        return comma(alloc, &[a, b]);
    }
    if let Some(op) = binary_op(op) {
        return Ok(Some(binary(alloc, op, a, b)?));
    }
    let changed = binary_op(op.strip_suffix('=').unwrap_or(""));
    Ok(Some(assignment(alloc, changed, a, b)?))
}

fn judged(alloc: Global, op: &str, os: &[Operand]) -> Result<Option<Judged>, NoMemory> {
    match os {
        [o] => match unary_op(op) {
            Some(op) => unary(alloc, op, *o),
            None => Ok(None),
        },
        [a, b] => between(alloc, op, *a, *b),
        [test, a, b] => Ok(Some(chosen(alloc, *test, *a, *b)?)),
        _ => Ok(None),
    }
}

fn letter(t: TypeId) -> u8 {
    if t.0 < 24 { TYPES[t.0 as usize] } else { b'#' }
}

fn letter_of(s: Shape) -> u8 {
    for letter in TYPES {
        if shape(letter) == s {
            return letter;
        }
    }
    b'#'
}

fn want_letter(want: Want) -> u8 {
    match want {
        Want::Own => b'.',
        Want::Type(t) => letter(t),
        Want::Of(s) => letter_of(s),
    }
}

fn space_letter(space: Space) -> u8 {
    match space {
        Space::Global => b'g',
        Space::Constant => b'k',
        Space::Local => b'l',
        Space::Private => b'p',
    }
}

fn code_text(alloc: Global, code: u16) -> Result<Text, NoMemory> {
    let digits = [code / 100 % 10, code / 10 % 10, code % 10];
    let mut text = Text::new(alloc);
    for digit in digits {
        text.extend(&[b'0' + digit as u8])?;
    }
    Ok(text)
}

fn shown(alloc: Global, judged: &Judged) -> Result<Text, NoMemory> {
    let made = match judged {
        Judged::Broken(code) => return code_text(alloc, *code),
        Judged::Makes(made) => made,
    };
    let mut text = Text::new(alloc);
    for want in made.wants.as_slice() {
        text.extend(&[want_letter(*want)])?;
    }
    text.extend(&[want_letter(made.gives)])?;
    if let Some(space) = made.lies {
        text.extend(&[b'@', space_letter(space)])?;
    }
    if made.readonly {
        text.extend(b"!")?;
    }
    Ok(text)
}

fn found(alloc: Global, op: &str, words: &str) -> Result<Text, NoMemory> {
    let os = operands(alloc, words)?;
    match judged(alloc, op, os.as_slice())? {
        Some(judged) => shown(alloc, &judged),
        None => Text::from_bytes(alloc, b"-"),
    }
}

fn selected(alloc: Global, count: &str, name: &str) -> Result<Text, NoMemory> {
    let count = match count {
        "2" => 2,
        "3" => 3,
        _ => 4,
    };
    let mut text = Text::new(alloc);
    match selection(alloc, count, name.as_bytes())? {
        Some(at) => {
            for k in at.as_slice() {
                text.extend(&[b'0'.wrapping_add(*k)])?;
            }
        }
        None => text.extend(b"-")?,
    }
    Ok(text)
}

fn part(alloc: Global, word: &str, name: &str) -> Result<Text, NoMemory> {
    let mut members = List::new(alloc);
    members.push(Member {
        name: Text::from_bytes(alloc, b"first")?,
        ty: number(b'i'),
    })?;
    members.push(Member {
        name: Text::from_bytes(alloc, b"second")?,
        ty: number(b'x'),
    })?;
    let o = operand(word.as_bytes());
    let own = if word.starts_with('t') {
        members.as_slice()
    } else {
        &[]
    };
    let judged = match name.strip_prefix('=') {
        Some(name) => member(alloc, true, own, name.as_bytes(), o)?,
        None => member(alloc, false, own, name.as_bytes(), o)?,
    };
    shown(alloc, &judged)
}

fn cast(alloc: Global, ty: &str, words: &str) -> Result<Text, NoMemory> {
    let os = operands(alloc, words)?;
    let (q, star) = qualified(ty.as_bytes());
    let judged = cast_rule(alloc, q, star, os.as_slice())?;
    shown(alloc, &judged)
}

fn made_vector(alloc: Global, ty: &str, words: &str) -> Result<Text, NoMemory> {
    let os = operands(alloc, words)?;
    let (q, star) = qualified(ty.as_bytes());
    let judged = literal(alloc, q, star, os.as_slice())?;
    shown(alloc, &judged)
}

fn target(letter: u8) -> Target {
    Target {
        ty: number(letter),
        shape: shape(letter),
    }
}

fn called(alloc: Global, words: &str, kernel: bool, body: bool) -> Result<Text, NoMemory> {
    let os = operands(alloc, words)?;
    let mut params = List::new(alloc);
    params.push(number(b'c'))?;
    params.push(number(b'P'))?;
    let f = Signature {
        number: 7,
        name: Text::from_bytes(alloc, b"f")?,
        params,
        result: number(b'i'),
        kernel,
        body,
    };
    let judged = call_of(alloc, os.as_slice(), &[target(b'c'), target(b'P')], &f)?;
    shown(alloc, &judged)
}

// The rows of a table: what is wanted, what stands before the first blank behind the arrow, and what stands behind it.
fn row(line: &str) -> Option<(&str, &str, &str)> {
    let (wanted, case) = line.split_once(" <- ")?;
    let (first, rest) = case.split_once(" ").unwrap_or((case, ""));
    Some((wanted, first, rest))
}

#[test]
fn operators_want_and_give(rt: HostRuntime) -> Result<(), Fail> {
    for line in OPERATORS.lines() {
        let (wanted, op, words) = row(line).ok_or("a row without its arrow")?;
        let found = found(rt.alloc(), op, words)?;
        assert!(rt; found.as_slice() == wanted.as_bytes(), "{line}");
    }
    Ok(())
}

#[test]
fn names_select_components(rt: HostRuntime) -> Result<(), Fail> {
    for line in SELECTIONS.lines() {
        let (wanted, count, name) = row(line).ok_or("a row without its arrow")?;
        let found = selected(rt.alloc(), count, name)?;
        assert!(rt; found.as_slice() == wanted.as_bytes(), "{line}");
    }
    Ok(())
}

#[test]
fn members_are_found(rt: HostRuntime) -> Result<(), Fail> {
    for line in MEMBERS.lines() {
        let (wanted, word, name) = row(line).ok_or("a row without its arrow")?;
        let found = part(rt.alloc(), word, name)?;
        assert!(rt; found.as_slice() == wanted.as_bytes(), "{line}");
    }
    Ok(())
}

#[test]
fn casts_convert(rt: HostRuntime) -> Result<(), Fail> {
    for line in CASTS.lines() {
        let (wanted, ty, words) = row(line).ok_or("a row without its arrow")?;
        let found = cast(rt.alloc(), ty, words)?;
        assert!(rt; found.as_slice() == wanted.as_bytes(), "{line}");
    }
    Ok(())
}

#[test]
fn literals_are_full(rt: HostRuntime) -> Result<(), Fail> {
    for line in LITERALS.lines() {
        let (wanted, ty, words) = row(line).ok_or("a row without its arrow")?;
        let found = made_vector(rt.alloc(), ty, words)?;
        assert!(rt; found.as_slice() == wanted.as_bytes(), "{line}");
    }
    Ok(())
}

#[test]
fn calls_convert(rt: HostRuntime) -> Result<(), Fail> {
    let alloc = rt.alloc();
    for line in CALLS.lines() {
        let (wanted, words) = line.split_once(" <- ").ok_or("a row without its arrow")?;
        let found = called(alloc, words, false, true)?;
        assert!(rt; found.as_slice() == wanted.as_bytes(), "{line}");
    }
    let kernel = called(alloc, "c p", true, false)?;
    assert!(rt; kernel.as_slice() == b"316".as_slice());
    let unwritten = called(alloc, "c q", false, false)?;
    assert!(rt; unwritten.as_slice() == b"317".as_slice());
    Ok(())
}

#[test]
fn sizes_are_known(rt: HostRuntime) {
    let void = qualified(b"v").0;
    let clash = Qualified {
        clash: true,
        ..qualified(b"i").0
    };
    assert_eq!(rt; size_broken(void, None), Some(303));
    assert_eq!(rt; size_broken(void, Some(false)), Some(303));
    assert_eq!(rt; size_broken(clash, Some(false)), Some(326));
    assert_eq!(rt; size_broken(qualified(b"ig").0, None), Some(326));
    assert_eq!(rt; size_broken(qualified(b"ig").0, Some(true)), None);
    assert!(rt; no_size(operand(b"v")));
    assert!(rt; !no_size(operand(b"a")));
}
