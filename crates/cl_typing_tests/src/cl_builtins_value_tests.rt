//! What built-in functions on integers make of numbers at the edges of their types.

ghost use Rattle.std.specs.Prelude.{◌≡◌, IsTrue, [], ◌∷◌};
ghost use Rattle.clv_num.specs.Numbers.{is_width};
ghost use Rattle.cl_builtins.specs.Values.{takes_widths};

use cl_builtins::value;
use cl_types::Builtin;
use clv_num::Bits;

// A row has `s` for signed or `u` for unsigned numbers, a letter for each argument, and one for the value. A digit is
// itself. With w bits `m` is the least signed number and `g` the greatest one; `a`, `b`, `c` and `d` are -1 to -4, or
// unsigned the greatest numbers; `q` is 2 to the w - 2, `o` is -q, `f` is q - 1 and `r` half of q; `h` is 2 to half
// of w, and `k` is h - 1; `l` is w - 1, and `n` is w.

fn number(letter: u8, width: u8) -> Bits
    requires { IsTrue (is_width width) }
    ensures { result.width ≡ width }
{
    let number = match letter {
        b'0'..=b'9' => (letter - b'0') as u64,
        b'm' => 1 << (width - 1),
        b'g' => (1 << (width - 1)) - 1,
        b'a' => u64::MAX,
        b'b' => u64::MAX - 1,
        b'c' => u64::MAX - 2,
        b'd' => u64::MAX - 3,
        b'q' => 1 << (width - 2),
        b'o' => u64::MAX << (width - 2),
        b'f' => (1 << (width - 2)) - 1,
        b'r' => 1 << (width - 3),
        b'h' => 1 << (width / 2),
        b'k' => (1 << (width / 2)) - 1,
        b'l' => width as u64 - 1,
        _ => width as u64,
    };
    Bits::new(width, number)
}

fn one_at(builtin: Builtin, width: u8, rows: &str) -> bool
    requires width { IsTrue (is_width width) }
    requires takes { IsTrue (takes_widths builtin (width ∷ [])) }
{
    for row in rows.split(" ") {
        let [sign, x, wanted] = row.as_bytes() else {
            return false;
        };
        let args = [number(*x, width)];
        if value(builtin, &args, *sign == b's') != number(*wanted, width) {
            return false;
        }
    }
    true
}

fn two_at(builtin: Builtin, width: u8, rows: &str) -> bool
    requires width { IsTrue (is_width width) }
    requires takes { IsTrue (takes_widths builtin (width ∷ width ∷ [])) }
{
    for row in rows.split(" ") {
        let [sign, x, y, wanted] = row.as_bytes() else {
            return false;
        };
        let args = [number(*x, width), number(*y, width)];
        if value(builtin, &args, *sign == b's') != number(*wanted, width) {
            return false;
        }
    }
    true
}

fn three_at(builtin: Builtin, width: u8, rows: &str) -> bool
    requires width { IsTrue (is_width width) }
    requires takes { IsTrue (takes_widths builtin (width ∷ width ∷ width ∷ [])) }
{
    for row in rows.split(" ") {
        let [sign, x, y, z, wanted] = row.as_bytes() else {
            return false;
        };
        let args = [number(*x, width), number(*y, width), number(*z, width)];
        if value(builtin, &args, *sign == b's') != number(*wanted, width) {
            return false;
        }
    }
    true
}

fn one(builtin: Builtin, rows: &str) -> bool
    requires at_8 { IsTrue (takes_widths builtin (8 ∷ [])) }
    requires at_16 { IsTrue (takes_widths builtin (16 ∷ [])) }
    requires at_32 { IsTrue (takes_widths builtin (32 ∷ [])) }
    requires at_64 { IsTrue (takes_widths builtin (64 ∷ [])) }
{
    one_at(builtin, 8, rows)
        && one_at(builtin, 16, rows)
        && one_at(builtin, 32, rows)
        && one_at(builtin, 64, rows)
}

fn two(builtin: Builtin, rows: &str) -> bool
    requires at_8 { IsTrue (takes_widths builtin (8 ∷ 8 ∷ [])) }
    requires at_16 { IsTrue (takes_widths builtin (16 ∷ 16 ∷ [])) }
    requires at_32 { IsTrue (takes_widths builtin (32 ∷ 32 ∷ [])) }
    requires at_64 { IsTrue (takes_widths builtin (64 ∷ 64 ∷ [])) }
{
    two_at(builtin, 8, rows)
        && two_at(builtin, 16, rows)
        && two_at(builtin, 32, rows)
        && two_at(builtin, 64, rows)
}

fn three(builtin: Builtin, rows: &str) -> bool
    requires at_8 { IsTrue (takes_widths builtin (8 ∷ 8 ∷ 8 ∷ [])) }
    requires at_16 { IsTrue (takes_widths builtin (16 ∷ 16 ∷ 16 ∷ [])) }
    requires at_32 { IsTrue (takes_widths builtin (32 ∷ 32 ∷ 32 ∷ [])) }
    requires at_64 { IsTrue (takes_widths builtin (64 ∷ 64 ∷ 64 ∷ [])) }
{
    three_at(builtin, 8, rows)
        && three_at(builtin, 16, rows)
        && three_at(builtin, 32, rows)
        && three_at(builtin, 64, rows)
}

#[test]
fn distances(rt: HostRuntime) {
    assert!(rt; one(Builtin::Abs, "smm sgg sd4 s00 uaa umm"));
    assert!(rt;
        two(
            Builtin::AbsDiff,
            "smga sgma sc47 s4c7 uba1 ua2c u0aa smag s5d9"
        )
    );
}

#[test]
fn sums_saturate(rt: HostRuntime) {
    assert!(rt;
        two(
            Builtin::AddSat,
            "sg1g smam sgma sabc ugaa ua1a umma umga sqqg u235 s1a0"
        )
    );
    assert!(rt;
        two(
            Builtin::SubSat,
            "sm1m sgag s0mg samg u340 u0a0 uaa0 uagm smm0 s5d9"
        )
    );
}

#[test]
fn products_saturate(rt: HostRuntime) {
    assert!(rt;
        three(
            Builtin::MadSat,
            "smmmg smggm sqd0m sqdam sq2ag sm10m smaag shkgg shhag uaaaa uhkka uhhaa uq30o sabca"
        )
    );
}

#[test]
fn halves_of_sums(rt: HostRuntime) {
    assert!(rt;
        two(
            Builtin::Hadd,
            "smmm sggg sa0a scdd smga uabb uaaa u0ag ummm u253"
        )
    );
    assert!(rt;
        two(
            Builtin::Rhadd,
            "smao sggg sa00 scdc samo smg0 uaba uaaa u0am ummm u254"
        )
    );
}

#[test]
fn orders(rt: HostRuntime) {
    assert!(rt; two(Builtin::Min, "smgm umgg sa1a ua11 s000"));
    assert!(rt; two(Builtin::Max, "smgg umgm sa11 ua1a sbcb"));
    assert!(rt; three(Builtin::Clamp, "smb2b sgb22 s1b21 um1gg u01g1 s0522 uabcc"));
}

#[test]
fn counts_of_bits(rt: HostRuntime) {
    assert!(rt; one(Builtin::Clz, "u0n u1l sm0 sg1 uq1 ua0"));
    assert!(rt; one(Builtin::Popcount, "u00 san um1 sbl u73 ur1"));
}

#[test]
fn upper_halves(rt: HostRuntime) {
    assert!(rt;
        two(
            Builtin::MulHi,
            "smmq smgo sa1a sab0 sqda uaab um21 uhh1 uhk0 uq82 uggf ua00"
        )
    );
    assert!(rt; three(Builtin::MadHi, "smmaf sa1mg sa1ab uaa20 uhha0"));
}

#[test]
fn products_at_32_bits(rt: HostRuntime) {
    assert!(rt; two_at(Builtin::Mul24, 32, "uhh0 sab2 umm0"));
    assert!(rt; three_at(Builtin::Mad24, 32, "sc390 uhh77 sab13"));
}

#[test]
fn rotations(rt: HostRuntime) {
    assert!(rt;
        two(
            Builtin::Rotate,
            "um11 smaq u101 u1n1 saga sqar uq21 ub1c ua5a"
        )
    );
}

#[test]
fn halves_are_joined(rt: HostRuntime) {
    for (high, low, wide) in [(0xfe, 0x81, 0xfe81), (0, 0xff, 0xff), (0x80, 0, 0x8000)] {
        let args = [Bits::new(8, high), Bits::new(8, low)];
        assert_eq!(rt; value(Builtin::Upsample, &args, true), Bits::new(16, wide));
    }
    let args = [Bits::new(16, 0x8000), Bits::new(16, 0xffff)];
    assert_eq!(rt;
        value(Builtin::Upsample, &args, false),
        Bits::new(32, 0x8000_ffff)
    );
    let args = [Bits::new(32, 0xffff_ffff), Bits::new(32, 1)];
    assert_eq!(rt;
        value(Builtin::Upsample, &args, true),
        Bits::new(64, 0xffff_ffff_0000_0001)
    );
}

#[test]
fn selection(rt: HostRuntime) {
    assert!(rt; three(Builtin::Select { vector: false }, "u1201 s1212 s12g2 u12m2"));
    assert!(rt;
        three(
            Builtin::Select { vector: true },
            "u1201 s1211 s12g1 u12m2 s12a2"
        )
    );
}

fn converted(from: Bits, signed: bool, bits: u8, to_signed: bool, sat: bool) -> u64
    requires { IsTrue (is_width bits) }
{
    let builtin = Builtin::Convert {
        bits,
        signed: to_signed,
        sat,
    };
    value(builtin, &[from], signed).value
}

#[test]
fn conversions(rt: HostRuntime) {
    // to `char` from `short` and from `ushort`
    for (x, cut, near, near_unsigned) in [
        (0x7f, 0x7f, 0x7f, 0x7f),
        (0x80, 0x80, 0x7f, 0x7f),
        (0xff80, 0x80, 0x80, 0x7f),
        (0xff7f, 0x7f, 0x80, 0x7f),
    ] {
        let from = Bits::new(16, x);
        assert_eq!(rt; converted(from, true, 8, true, false), cut);
        assert_eq!(rt; converted(from, false, 8, true, false), cut);
        assert_eq!(rt; converted(from, true, 8, true, true), near);
        assert_eq!(rt; converted(from, false, 8, true, true), near_unsigned);
    }
    // to `ushort` from `int` and from `uint`
    for (x, cut, near, near_unsigned) in [
        (0xffff, 0xffff, 0xffff, 0xffff),
        (0x1_0001, 1, 0xffff, 0xffff),
        (0xffff_fffe, 0xfffe, 0, 0xffff),
    ] {
        let from = Bits::new(32, x);
        assert_eq!(rt; converted(from, true, 16, false, false), cut);
        assert_eq!(rt; converted(from, true, 16, false, true), near);
        assert_eq!(rt; converted(from, false, 16, false, true), near_unsigned);
    }
    // to `uint` and to `int` from `long`
    for (x, near_unsigned, near) in [
        (1 << 63, 0, 0x8000_0000),
        (u64::MAX, 0, 0xffff_ffff),
        (1 << 32, 0xffff_ffff, 0x7fff_ffff),
        (0x8000_0000, 0x8000_0000, 0x7fff_ffff),
    ] {
        let from = Bits::new(64, x);
        assert_eq!(rt; converted(from, true, 32, false, true), near_unsigned);
        assert_eq!(rt; converted(from, true, 32, true, true), near);
    }
    // to `long` and to `ulong` from `char` and from `uchar`
    let from = Bits::new(8, 0x80);
    assert_eq!(rt;
        converted(from, true, 64, true, false),
        0xffff_ffff_ffff_ff80
    );
    assert_eq!(rt; converted(from, false, 64, true, true), 0x80);
    assert_eq!(rt; converted(from, true, 64, false, true), 0);
    // to `long` from `ulong`, and back
    let from = Bits::new(64, 1 << 63);
    assert_eq!(rt;
        converted(from, false, 64, true, true),
        0x7fff_ffff_ffff_ffff
    );
    assert_eq!(rt; converted(from, true, 64, false, true), 0);
}
