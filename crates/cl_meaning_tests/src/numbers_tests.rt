//! Arithmetic of whole numbers.

use crate::driver::leaves;
use std::test::Fail;

const DIVISORS: &str = "// Greatest common divisors, and the coefficients that give them.
int extended(int a, int b, int2 *by) {
    int2 now = (int2)(1, 0), next = (int2)(0, 1);
    while (b) {
        int q = a / b, r = a - q * b;
        a = b;
        b = r;
        int2 t = now - q * next;
        now = next;
        next = t;
    }
    *by = now;
    return a;
}

__kernel void divisors(__global const int2 *pairs, __global int2 *out) {
    int i = get_global_id(0);
    int2 by;
    int divisor = extended(pairs[i].x, pairs[i].y, &by);
    out[i] = (int2)(abs(divisor), by.x * pairs[i].x + by.y * pairs[i].y == divisor);
}
";

const POWERS: &str = "// Powers below a modulus, by squaring.
__kernel void powers(__global ulong *table) {
    __global ulong *row = table + get_global_id(0) * 3;
    ulong base = row[0] % row[2], result = 1;
    for (ulong left = row[1]; left != 0; left >>= 1) {
        if (left & 1)
            result = result * base % row[2];
        base = base * base % row[2];
    }
    row[0] = result;
}
";

const ROOTS: &str = "// Whole square roots, digit after digit.
__kernel void roots(__global const uint *numbers, __global uint *out) {
    uint n = numbers[get_global_id(0)], root = 0, bit = 1u << 30;
    for (; bit > n; bit >>= 2)
        ;
    do {
        uint tried = root + bit;
        root >>= 1;
        if (n >= tried)
            n -= tried, root += bit;
    } while (bit >>= 2);
    out[get_global_id(0)] = root;
}
";

const SIEVE: &str = "// The primes below 20, crossed out in a private array.
__kernel void sieve(__global int *primes) {
    uchar crossed[20] = {1, 1};
    int count = 0;
    for (int i = 0; i < 20; i++) {
        if (crossed[i])
            continue;
        primes[count++] = i;
        for (int j = i * i; j < 20; j += i)
            crossed[j] = 1;
    }
}
";

const FIBONACCI: &str = "// Fibonacci numbers by powers of a matrix.
typedef struct { long m[2][2]; } matrix;

matrix product(matrix a, matrix b) {
    matrix c;
    for (int i = 0; i < 2; i++)
        for (int j = 0; j < 2; j++)
            c.m[i][j] = a.m[i][0] * b.m[0][j] + a.m[i][1] * b.m[1][j];
    return c;
}

__kernel void fibonacci(__global long *out) {
    uint n = get_global_id(0) * 3;
    matrix power = {{{1, 1}, {1, 0}}}, result = {{{1, 0}, {0, 1}}};
    for (; n; n /= 2) {
        if (n % 2)
            result = product(result, power);
        power = product(power, power);
    }
    out[get_global_id(0)] = result.m[0][1];
}
";

const LIMBS: &str = "// The product of two numbers of three limbs.
__kernel void multiply(__global const uint *a, __global const uint *b, __global uint *out) {
    uint sum[6] = {0};
    for (int i = 0; i < 3; i++) {
        uint carry = 0;
        for (int j = 0; j < 3; j++) {
            uint low = a[i] * b[j], high = mul_hi(a[i], b[j]);
            uint t = sum[i + j] + low;
            high += t < low;
            sum[i + j] = t + carry;
            carry = high + (sum[i + j] < carry);
        }
        sum[i + 3] += carry;
    }
    for (int i = 0; i < 6; i++)
        out[i] = sum[i];
}
";

const COLLATZ: &str = "// How many steps it takes to come to one.
__kernel void lengths(__global uint *numbers) {
    uint n = numbers[get_global_id(0)], length = 0;
    do {
        if (n == 1)
            break;
        n = n & 1 ? 3 * n + 1 : n / 2;
        length++;
    } while (true);
    numbers[get_global_id(0)] = length;
}
";

#[test]
fn leave_their_buffers(rt: HostRuntime) -> Result<(), Fail> {
    let table: [(&str, &str, &str); 7] = [
        (
            DIVISORS,
            "g 3 l 1 w 12 18 35 -64 0 7 w 0*6",
            "w 12 18 35 -64 0 7 w 6 1*3 7 1",
        ),
        (
            POWERS,
            "g 2 l 2 q 3 45 1000000007 2 63 999999937",
            "q 644897553 45 1000000007 927250679 63 999999937",
        ),
        (
            ROOTS,
            "g 4 l 1 w 0 15 16 -1 w 0*4",
            "w 0 15 16 -1 w 0 3 4 65535",
        ),
        (SIEVE, "w 0*8", "w 2 3 5 7 11 13 17 19"),
        (FIBONACCI, "g 4 l 2 q 0*4", "q 0 2 8 34"),
        (
            LIMBS,
            "w -1 -1 5 w 77 -2 -1 w 0*6",
            "w -1 -1 5 w 77 -2 -1 w -77 1 462 -13 -1 5",
        ),
        (COLLATZ, "g 5 l 1 w 1 2 3 6 7", "w 0 1 7 8 16"),
    ];
    for (text, given, left) in table {
        assert!(rt; leaves(rt.alloc(), text, given, left, 1)?, "{text}");
        assert!(rt; leaves(rt.alloc(), text, given, left, 1_000_000)?, "{text}");
    }
    Ok(())
}
