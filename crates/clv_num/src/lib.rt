//! The counting room: numbers of 8, 16, 32 and 64 bits, and the arithmetic that the preprocessor,
//! the constant folder, the meanings and the machine share. A number is a pattern of bits; each
//! operation says whether it reads the pattern as unsigned or by its signed view, in two's
//! complement. No call takes memory, and none is refused.
#![tactic(auto)]

ghost use Rattle.std.specs.Prelude.{◌≡◌, ◌+◌, ◌%◌, ◌^◌, ◌<◌, ◌↔◌, IsTrue, ℤ, ◌<ℤ◌, bit_and, bit_or, bit_xor};
ghost use Rattle.clv_num.specs.Numbers.{is_width, signed_of, pattern_of, add_of, sub_of, mul_of, udiv_of, urem_of, sdiv_of, srem_of, NotLeastByMinusOne, not_of, neg_of, shl_of, lshr_of, ashr_of, convert_of};

/// A pattern of bits: a value of `char`, `short`, `int`, `long` or their unsigned kinds, which does
/// not say whether it is signed (OpenCL C 1.2, section 6.1.1).
#[derive(Clone, Copy, PartialEq, Eq, Debug)]
pub struct Bits {
    /// How many bits: 8, 16, 32 or 64.
    pub width: u8,
    /// The bits as an unsigned number, below 2 to the width.
    pub value: u64,
    pub ghost is_width: { IsTrue (is_width width) },
    pub ghost in_range: { value < 2 ^ width },
}

// The greatest pattern of a width.
fn ones(width: u8) -> u64
    requires { IsTrue (is_width width) }
    ensures { result + 1 ≡ 2 ^ width }
{
    u64::MAX >> (64 - width)
}

impl Bits {
    /// The low `width` bits of a value.
    #[tactic(auto, using(crate::proofs::Patterns::and_ones))]
    pub fn new(width: u8, value: u64) -> Bits
        requires { IsTrue (is_width width) }
        ensures width { result.width ≡ width }
        ensures value { result.value ≡ value % 2 ^ width }
    {
        Bits {
            width,
            value: value & ones(width),
        }
    }

    // The pattern of a signed number, cut to the width.
    fn from_signed(width: u8, exact: i64) -> Bits
        requires { IsTrue (is_width width) }
        ensures width { result.width ≡ width }
        ensures value { result.value ≡ pattern_of width exact }
    {
        Bits::new(width, exact.cast_unsigned())
    }

    /// The sum modulo 2 to the width, of signed and of unsigned numbers alike (section 6.3, `+`).
    pub fn add(self, other: Bits) -> Bits
        requires { self.width ≡ other.width }
        ensures width { result.width ≡ self.width }
        ensures value { result.value ≡ add_of self.width self.value other.value }
    {
        Bits::new(self.width, self.value.wrapping_add(other.value))
    }

    /// The difference modulo 2 to the width, of signed and of unsigned numbers alike (section 6.3,
    /// `-`).
    pub fn sub(self, other: Bits) -> Bits
        requires { self.width ≡ other.width }
        ensures width { result.width ≡ self.width }
        ensures value { result.value ≡ sub_of self.width self.value other.value }
    {
        Bits::new(self.width, self.value.wrapping_sub(other.value))
    }

    /// The product modulo 2 to the width, of signed and of unsigned numbers alike (section 6.3,
    /// `*`).
    pub fn mul(self, other: Bits) -> Bits
        requires { self.width ≡ other.width }
        ensures width { result.width ≡ self.width }
        ensures value { result.value ≡ mul_of self.width self.value other.value }
    {
        Bits::new(self.width, self.value.wrapping_mul(other.value))
    }

    /// The quotient of unsigned numbers, toward zero (section 6.3, `/`).
    pub fn udiv(self, other: Bits) -> Bits
        requires equal { self.width ≡ other.width }
        requires divisor { 0 < other.value }
        ensures width { result.width ≡ self.width }
        ensures value { result.value ≡ udiv_of self.width self.value other.value }
    {
        Bits {
            width: self.width,
            value: self.value / other.value,
        }
    }

    /// The remainder of unsigned numbers (section 6.3, `%`).
    pub fn urem(self, other: Bits) -> Bits
        requires equal { self.width ≡ other.width }
        requires divisor { 0 < other.value }
        ensures width { result.width ≡ self.width }
        ensures value { result.value ≡ urem_of self.width self.value other.value }
    {
        Bits {
            width: self.width,
            value: self.value % other.value,
        }
    }

    /// The quotient of signed numbers, toward zero (section 6.3, `/`). The least number by -1 has
    /// no quotient of this width.
    #[tactic(auto, using(crate::proofs::Quotients::sdiv_is))]
    pub fn sdiv(self, other: Bits) -> Bits
        requires equal { self.width ≡ other.width }
        requires divisor { 0 < other.value }
        requires in_range { NotLeastByMinusOne self.width self.value other.value }
        ensures width { result.width ≡ self.width }
        ensures value { result.value ≡ sdiv_of self.width self.value other.value }
    {
        Bits::from_signed(self.width, self.signed() / other.signed())
    }

    /// The remainder of signed numbers, with the dividend's sign (section 6.3, `%`).
    pub fn srem(self, other: Bits) -> Bits
        requires equal { self.width ≡ other.width }
        requires divisor { 0 < other.value }
        requires in_range { NotLeastByMinusOne self.width self.value other.value }
        ensures width { result.width ≡ self.width }
        ensures value { result.value ≡ srem_of self.width self.value other.value }
    {
        Bits::from_signed(self.width, self.signed() % other.signed())
    }

    /// The bits that both have (section 6.3, `&`).
    pub fn and(self, other: Bits) -> Bits
        requires { self.width ≡ other.width }
        ensures width { result.width ≡ self.width }
        ensures value { result.value ≡ bit_and self.value other.value }
    {
        Bits {
            width: self.width,
            value: self.value & other.value,
        }
    }

    /// The bits that one or both have (section 6.3, `|`).
    #[tactic(auto, using(std::proofs::lemmas::Nat::or_lt))]
    pub fn or(self, other: Bits) -> Bits
        requires { self.width ≡ other.width }
        ensures width { result.width ≡ self.width }
        ensures value { result.value ≡ bit_or self.value other.value }
    {
        Bits {
            width: self.width,
            value: self.value | other.value,
        }
    }

    /// The bits that only one has (section 6.3, `^`).
    #[tactic(auto, using(std::proofs::lemmas::Nat::xor_lt))]
    pub fn xor(self, other: Bits) -> Bits
        requires { self.width ≡ other.width }
        ensures width { result.width ≡ self.width }
        ensures value { result.value ≡ bit_xor self.value other.value }
    {
        Bits {
            width: self.width,
            value: self.value ^ other.value,
        }
    }

    /// The bits that it has not (section 6.3, `~`).
    pub fn not(self) -> Bits
        ensures width { result.width ≡ self.width }
        ensures value { result.value ≡ not_of self.width self.value }
    {
        Bits::new(self.width, !self.value)
    }

    /// The negated number modulo 2 to the width (section 6.3, unary `-`).
    pub fn neg(self) -> Bits
        ensures width { result.width ≡ self.width }
        ensures value { result.value ≡ neg_of self.width self.value }
    {
        Bits::new(self.width, self.value.wrapping_neg())
    }

    /// The bits moved up by so many places, with zeros below (section 6.3, `<<`).
    pub fn shl(self, by: u32) -> Bits
        requires { by < self.width }
        ensures width { result.width ≡ self.width }
        ensures value { result.value ≡ shl_of self.width self.value by }
    {
        Bits::new(self.width, self.value << by)
    }

    /// The bits moved down by so many places, with zeros above: `>>` of unsigned numbers (section
    /// 6.3).
    pub fn lshr(self, by: u32) -> Bits
        requires { by < self.width }
        ensures width { result.width ≡ self.width }
        ensures value { result.value ≡ lshr_of self.width self.value by }
    {
        Bits {
            width: self.width,
            value: self.value >> by,
        }
    }

    /// The bits moved down by so many places, with copies of the high bit above: `>>` of signed
    /// numbers (section 6.3).
    pub fn ashr(self, by: u32) -> Bits
        requires { by < self.width }
        ensures width { result.width ≡ self.width }
        ensures value { result.value ≡ ashr_of self.width self.value by }
    {
        Bits::from_signed(self.width, self.signed() >> by)
    }

    /// The number at another width: cut to it, or extended with the sign where `signed` says that
    /// the number is signed, and else with zeros (section 6.2).
    pub fn convert(self, signed: bool, width: u8) -> Bits
        requires { IsTrue (is_width width) }
        ensures width { result.width ≡ width }
        ensures value { result.value ≡ convert_of self.width self.value signed width }
    {
        if signed {
            Bits::from_signed(width, self.signed())
        } else {
            Bits::new(width, self.value)
        }
    }

    /// The signed view, in two's complement.
    pub fn signed(self) -> i64
        ensures { result ≡ signed_of self.width self.value }
    {
        // The high bit goes to the top, and comes down again with its copies.
        let unused = 64 - self.width;
        (self.value << unused).cast_signed() >> unused
    }

    /// Less, as unsigned numbers (section 6.3, `<`).
    pub fn ult(self, other: Bits) -> bool
        requires { self.width ≡ other.width }
        ensures { IsTrue result ↔ (self.value < other.value) }
    {
        self.value < other.value
    }

    /// Less, as signed numbers (section 6.3, `<`).
    pub fn slt(self, other: Bits) -> bool
        requires { self.width ≡ other.width }
        ensures { IsTrue result ↔ (signed_of self.width self.value <ℤ signed_of other.width other.value) }
    {
        self.signed() < other.signed()
    }

    /// Whether they are one pattern (section 6.3, `==`).
    pub fn same(self, other: Bits) -> bool
        requires { self.width ≡ other.width }
        ensures { IsTrue result ↔ (self.value ≡ other.value) }
    {
        self.value == other.value
    }
}

#[cfg(test)]
mod tests {
    use super::*;

    #[test]
    fn sums_differences_and_products_wrap(rt: HostRuntime) {
        for (a, b, sum, difference, product) in [
            (200, 100, 44, 100, 32),
            (100, 200, 44, 156, 32),
            (255, 1, 0, 254, 255),
            (0x80, 0x80, 0, 0, 0),
        ] {
            let (a, b) = (Bits::new(8, a), Bits::new(8, b));
            assert_eq!(rt; a.add(b), Bits::new(8, sum));
            assert_eq!(rt; a.sub(b), Bits::new(8, difference));
            assert_eq!(rt; a.mul(b), Bits::new(8, product));
        }
        let minus_one = Bits::new(16, 0xffff);
        assert_eq!(rt; minus_one.mul(minus_one).value, 1);
        let thousand = Bits::new(32, 1000);
        assert_eq!(rt;
            Bits::new(32, 123_456_789).mul(thousand).value,
            3_197_704_712
        );
        let (greatest, two) = (Bits::new(64, u64::MAX), Bits::new(64, 2));
        assert_eq!(rt; greatest.add(two).value, 1);
        assert_eq!(rt; greatest.sub(two).value, 0xffff_ffff_ffff_fffd);
        assert_eq!(rt; greatest.mul(two).value, 0xffff_ffff_ffff_fffe);
        assert_eq!(rt; Bits::new(16, 0x1_2345).value, 0x2345);
    }

    #[test]
    fn quotients_go_toward_zero(rt: HostRuntime) {
        let (seven, two) = (Bits::new(8, 7), Bits::new(8, 2));
        let (minus_seven, minus_two) = (Bits::new(8, 249), Bits::new(8, 254));
        assert_eq!(rt; seven.sdiv(minus_two).signed(), -3);
        assert_eq!(rt; seven.srem(minus_two).signed(), 1);
        assert_eq!(rt; minus_seven.sdiv(two).signed(), -3);
        assert_eq!(rt; minus_seven.srem(two).signed(), -1);
        assert_eq!(rt; minus_seven.sdiv(minus_two).signed(), 3);
        assert_eq!(rt; minus_seven.srem(minus_two).signed(), -1);
        assert_eq!(rt; minus_seven.udiv(two).value, 124);
        assert_eq!(rt; minus_seven.urem(two).value, 1);
        let (least, three) = (Bits::new(64, 1 << 63), Bits::new(64, 3));
        assert_eq!(rt; least.sdiv(three).signed(), -3_074_457_345_618_258_602);
        assert_eq!(rt; least.srem(three).signed(), -2);
        assert_eq!(rt; least.udiv(three).signed(), 3_074_457_345_618_258_602);
        assert_eq!(rt; least.urem(three).signed(), 2);
    }

    #[test]
    fn bits_and_shifts(rt: HostRuntime) {
        let (a, b) = (Bits::new(8, 0xcc), Bits::new(8, 0xaa));
        assert_eq!(rt; a.and(b).value, 0x88);
        assert_eq!(rt; a.or(b).value, 0xee);
        assert_eq!(rt; a.xor(b).value, 0x66);
        for (n, not, neg) in [
            (0, 255, 0),
            (1, 254, 255),
            (0x0f, 0xf0, 0xf1),
            (0x80, 0x7f, 0x80),
        ] {
            assert_eq!(rt; Bits::new(8, n).not().value, not, "~{n}");
            assert_eq!(rt; Bits::new(8, n).neg().value, neg, "-{n}");
        }
        for (n, up, down, down_signed) in [
            (0x81, 0x02, 0x40, 0xc0),
            (0x7f, 0xfe, 0x3f, 0x3f),
            (0xf9, 0xf2, 0x7c, 0xfc),
        ] {
            assert_eq!(rt; Bits::new(8, n).shl(1).value, up, "{n} << 1");
            assert_eq!(rt; Bits::new(8, n).lshr(1).value, down, "{n} >> 1");
            assert_eq!(rt;
                Bits::new(8, n).ashr(1).value,
                down_signed,
                "{n} >> 1, signed"
            );
        }
        let least = Bits::new(64, 1 << 63);
        assert_eq!(rt; least.ashr(63).value, u64::MAX);
        assert_eq!(rt; least.lshr(63).value, 1);
        assert_eq!(rt; Bits::new(64, 3).shl(63), least);
    }

    #[test]
    fn conversions_extend_or_cut(rt: HostRuntime) {
        let byte = Bits::new(8, 0x80);
        assert_eq!(rt; byte.convert(true, 32).value, 0xffff_ff80);
        assert_eq!(rt; byte.convert(false, 32).value, 0x80);
        assert_eq!(rt; byte.convert(true, 64).value, 0xffff_ffff_ffff_ff80);
        assert_eq!(rt; Bits::new(16, 0x7fff).convert(true, 64).value, 0x7fff);
        assert_eq!(rt; Bits::new(32, 0x1234_5678).convert(true, 16).value, 0x5678);
        assert_eq!(rt; Bits::new(32, 0x1234_5678).convert(false, 8).value, 0x78);
        assert_eq!(rt; byte.signed(), -128);
        assert_eq!(rt; Bits::new(16, 0x8000).signed(), -32_768);
        assert_eq!(rt; Bits::new(32, 0xffff_ffff).signed(), -1);
        assert_eq!(rt; Bits::new(64, 1 << 63).signed(), i64::MIN);
        assert_eq!(rt; Bits::new(64, 127).signed(), 127);
    }

    #[test]
    fn comparisons_by_either_view(rt: HostRuntime) {
        for (a, b, ult, slt, same) in [
            (0x80, 0x7f, false, true, false),
            (0x7f, 0x80, true, false, false),
            (0xff, 0, false, true, false),
            (0xfe, 0xff, true, true, false),
            (0x80, 0x80, false, false, true),
        ] {
            let (a, b) = (Bits::new(8, a), Bits::new(8, b));
            assert_eq!(rt; a.ult(b), ult);
            assert_eq!(rt; a.slt(b), slt);
            assert_eq!(rt; a.same(b), same);
        }
    }
}
