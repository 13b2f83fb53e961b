//! Every name has a form that fits, and what fits none is refused.

ghost use Rattle.std.specs.Prelude.{IfOk};
ghost use Rattle.cl_builtins.specs.Found.{IsKnown, AreKnown};

use cl_builtins::{FindStop, find};
use cl_types::{Builtin, ClType, Space, TypeId, TypeStop, TypeTable};
use clv_place::{List, Text};
use std::alloc::Global;
use std::test::Fail;

// The types of the tests, in the order of `table`: c char, s short, i int, l long, and as capitals their
// unsigned forms; xyz vectors of 2 to 4 ints, and XYZ of uints; v void, b bool; pointers to int: p global,
// P to const, k constant, q private; u to uint, local; w to int2, global.
const TYPES: [u8; 22] = *b"cCsSiIlLxyzXYZvbpPkquw";

// Calls, a name and the letters of its arguments, each behind what it comes to: the letters of the parameters
// and of the result, `-` where no form fits, and `?` where there is no such name.
const CASES: &str = "I <- get_work_dim
II <- get_global_size b
II <- get_global_id c
II <- get_local_size I
II <- get_local_id L
II <- get_num_groups s
II <- get_group_id i
II <- get_global_offset l
cC <- abs c
yY <- abs y
ZZZ <- abs_diff ZZ
llL <- abs_diff il
ccc <- add_sat cc
iii <- add_sat cs
III <- sub_sat iI
iiii <- mad_sat ssS
llll <- mad_sat Iil
xxx <- hadd xx
LLL <- rhadd Ll
iii <- min bb
ziz <- min zi
YYY <- max YY
xiix <- clamp xii
xxxx <- clamp xxx
CCCC <- clamp CCC
CC <- clz C
ii <- popcount b
III <- mul_hi II
yyyy <- mad_hi yyy
iii <- mul24 sS
ZZZZ <- mad24 ZZZ
iiii <- mad24 cci
LLL <- rotate LL
cCs <- upsample cC
SSI <- upsample Si
iIl <- upsample bl
zi <- any z
ci <- all c
iiIi <- select iiI
YYyY <- select YYy
iiii <- select csi
Ipx <- vload2 cp
Iky <- vload3 ik
IPz <- vload4 lP
xIpv <- vstore2 xip
yIqv <- vstore3 bIq
ZIuv <- vstore4 Zbu
Iv <- barrier i
Iv <- mem_fence I
Iv <- read_mem_fence l
Iv <- write_mem_fence c
pii <- atomic_add pl
uII <- atomic_sub ui
pii <- atomic_xchg pb
uII <- atomic_min uI
pii <- atomic_max pI
uII <- atomic_and uc
pii <- atomic_or pi
uII <- atomic_xor uL
pi <- atomic_inc p
uI <- atomic_dec u
piii <- atomic_cmpxchg pcl
lC <- convert_uchar l
Yy <- convert_int3_sat Y
zZ <- convert_uint4 z
Ii <- as_int I
yY <- as_uint3 y
Zy <- as_int3 Z
xl <- as_long x
- <- get_work_dim i
- <- get_global_id
- <- get_global_id x
- <- get_local_id v
- <- get_group_id p
- <- barrier ii
- <- abs
- <- abs v
- <- abs p
- <- abs ii
- <- abs_diff xi
- <- add_sat yz
- <- add_sat xX
- <- mad_sat ii
- <- max ix
- <- min xI
- <- min xb
- <- clamp xxi
- <- clamp yic
- <- mul24 ss
- <- any I
- <- select iil
- <- mul24 li
- <- mad24 LLL
- <- upsample lL
- <- upsample xx
- <- upsample pi
- <- any Z
- <- all b
- <- select iic
- <- select zzi
- <- select xxy
- <- select iib
- <- select iXx
- <- vload4 xp
- <- vload2 iw
- <- vload3 pi
- <- vstore2 yip
- <- vstore2 xiP
- <- vstore2 xik
- <- vstore2 Xip
- <- atomic_add Pi
- <- atomic_or ki
- <- atomic_and qi
- <- atomic_xor wi
- <- atomic_inc pi
- <- atomic_cmpxchg pi
- <- atomic_max px
- <- convert_int3 z
- <- convert_int b
- <- convert_char_sat ii
- <- as_int4 Y
- <- as_int l
- <- as_uint b
? <- abs2 i
? <- vload5 ip
? <- vload8 ip
? <- convert_int_rte i
? <- convert_bool i
? <- convert_
? <- convert_int_sat_sat i
? <- as_int_sat i
? <- as_int5 i
? <- atom_add pi
? <- get_global i
? <- atomic_add2 pi";

// What stands for no name and for no form.
const NO_NAME: &[u8] = b"?";

const NO_FORM: &[u8] = b"-";

fn vectors(table: &mut TypeTable, elem: TypeId) -> Result<(), TypeStop> {
    if elem.0 as usize >= table.len() {
        return Err(TypeStop::NoMemory);
    }
    let ClType::Int { .. } = table.get(elem) else {
        return Err(TypeStop::NoMemory);
    };
    let _ = table.intern(ClType::Vector { elem, n: 2 })?;
    let _ = table.intern(ClType::Vector { elem, n: 3 })?;
    let _ = table.intern(ClType::Vector { elem, n: 4 })?;
    Ok(())
}

fn pointer(
    table: &mut TypeTable,
    space: Space,
    to: u32,
    readonly: bool,
) -> Result<TypeId, TypeStop> {
    if to as usize >= table.len() {
        return Err(TypeStop::NoMemory);
    }
    Ok(table.intern(ClType::Pointer {
        space,
        to: TypeId(to),
        readonly,
        restricted: false,
    })?)
}

fn table(alloc: Global) -> Result<TypeTable, TypeStop> {
    let mut table = TypeTable::new(alloc)?;
    for signed in [true, false] {
        let _ = table.intern(ClType::Int { bits: 8, signed })?;
    }
    for signed in [true, false] {
        let _ = table.intern(ClType::Int { bits: 16, signed })?;
    }
    for signed in [true, false] {
        let _ = table.intern(ClType::Int { bits: 32, signed })?;
    }
    for signed in [true, false] {
        let _ = table.intern(ClType::Int { bits: 64, signed })?;
    }
    vectors(&mut table, TypeId(4))?;
    vectors(&mut table, TypeId(5))?;
    let _ = table.intern(ClType::Void)?;
    let _ = table.intern(ClType::Bool)?;
    let _ = pointer(&mut table, Space::Global, 4, false)?;
    let _ = pointer(&mut table, Space::Global, 4, true)?;
    let _ = pointer(&mut table, Space::Constant, 4, false)?;
    let _ = pointer(&mut table, Space::Private, 4, false)?;
    let _ = pointer(&mut table, Space::Local, 5, false)?;
    let _ = pointer(&mut table, Space::Global, 8, false)?;
    Ok(table)
}

fn argument(table: &TypeTable, letter: u8) -> Result<TypeId, FindStop>
    ensures { IfOk result (IsKnown table.now) }
{
    for i in 0..22 {
        if TYPES[i] == letter && i < table.len() {
            return Ok(TypeId(i as u32));
        }
    }
    Err(FindStop::NoMemory)
}

fn arguments(alloc: Global, table: &TypeTable, args: &str) -> Result<List<TypeId>, FindStop>
    ensures { IfOk result (AreKnown table.now) }
{
    let mut list = List::new(alloc);
    for letter in args.as_bytes() {
        list.push(argument(table, *letter)?)?;
    }
    Ok(list)
}

fn letter(t: TypeId) -> u8 {
    if t.0 < 22 { TYPES[t.0 as usize] } else { b'#' }
}

// The letters of the parameters, and that of the result.
fn shown(alloc: Global, table: &mut TypeTable, name: &str, args: &str) -> Result<Text, FindStop> {
    let args = arguments(alloc, table, args)?;
    match find(alloc, name.as_bytes(), &args, table) {
        Ok(found) => {
            let mut text = Text::new(alloc);
            for param in found.params.as_slice() {
                text.extend(&[letter(*param)])?;
            }
            text.extend(&[letter(found.result)])?;
            Ok(text)
        }
        Err(FindStop::NoName) => Ok(Text::from_bytes(alloc, NO_NAME)?),
        Err(FindStop::NoForm) => Ok(Text::from_bytes(alloc, NO_FORM)?),
        Err(FindStop::NoMemory) => Err(FindStop::NoMemory),
    }
}

fn is_found(
    alloc: Global,
    table: &mut TypeTable,
    name: &str,
    args: &str,
    wanted: Builtin,
) -> Result<bool, FindStop> {
    let args = arguments(alloc, table, args)?;
    let found = find(alloc, name.as_bytes(), &args, table)?;
    Ok(found.builtin == wanted)
}

#[test]
fn names_have_forms(rt: HostRuntime) -> Result<(), Fail> {
    let mut table = table(rt.alloc())?;
    for case in CASES.lines() {
        let (wanted, call) = case.split_once(" <- ").ok_or("a case without its arrow")?;
        let (name, args) = call.split_once(" ").unwrap_or((call, ""));
        let found = shown(rt.alloc(), &mut table, name, args)?;
        assert!(rt; found.as_slice() == wanted.as_bytes(), "{call}");
    }
    Ok(())
}

#[test]
fn built_ins_are_told_apart(rt: HostRuntime) -> Result<(), Fail> {
    let alloc = rt.alloc();
    let mut table = table(alloc)?;
    let saturated = Builtin::Convert {
        bits: 8,
        signed: false,
        sat: true,
    };
    assert!(rt; is_found(alloc, &mut table, "convert_uchar_sat", "l", saturated)?);
    assert!(rt;
        is_found(
            alloc,
            &mut table,
            "select",
            "iii",
            Builtin::Select { vector: false }
        )?
    );
    assert!(rt;
        is_found(
            alloc,
            &mut table,
            "select",
            "xxx",
            Builtin::Select { vector: true }
        )?
    );
    assert!(rt; is_found(alloc, &mut table, "vstore3", "yip", Builtin::Vstore(3))?);
    Ok(())
}
