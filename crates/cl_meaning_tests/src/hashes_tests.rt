//! Hashes, checks and ciphers.

use crate::driver::leaves;
use std::test::Fail;

const SHIFT_HASH: &str = "// A hash by shifts, one row an item.
uint step(uint hash, uchar byte) {
    return (hash << 5) + hash + byte;
}

__kernel void rows(__global const uchar *text, uint width, __global uint *hashes) {
    __global const uchar *at = text + get_global_id(0) * width, *end = at + width;
    uint hash = 5381;
    while (at != end)
        hash = step(hash, *at++);
    hashes[get_global_id(0)] = hash;
}
";

const TWO_SUMS: &str = "// Two sums of bytes, each below a prime, in one number.
#define PRIME 65521u
__kernel void sums(__global const uchar *bytes, __global uint *out) {
    uint low = 1, high = 0;
    for (size_t i = get_global_id(0) * 4, end = i + 4; i < end; ++i) {
        low = (low + bytes[i]) % PRIME;
        high = (high + low) % PRIME;
    }
    out[get_global_id(0)] = high << 16 | low;
}
";

const CHECK_BYTE: &str = "// A check of eight bits by the polynomial 7, bit after bit.
uchar next(uchar check, uchar byte) {
    check ^= byte;
    for (char bit = 7; bit >= 0; bit--)
        check = check & 0x80 ? (uchar)(check << 1) ^ 7 : check << 1;
    return check;
}

__kernel void checks(__global const uchar2 *pairs, __global uchar *out) {
    const uint i = get_global_id(0);
    out[i] = next(next(0, pairs[i].x), pairs[i].y);
}
";

const WIDE_ROUNDS: &str = "// Rounds of sums and rotations over four words of 64 bits.
typedef struct {
    ulong a, b, c, d;
} state;

void turn(state *s) {
    s->a += s->b;
    s->b = rotate(s->b, (ulong)13) ^ s->a;
    s->a = rotate(s->a, 32ul);
    s->c += s->d;
    s->d = rotate(s->d, 16ul) ^ s->c;
}

__kernel void digest(__global const ulong2 *words, ulong key, __global ulong *out) {
    size_t i = get_global_id(0);
    state s = {key ^ 0x736f6d65ul, ~key, words[i].s0, words[i].s1};
    for (int round = 0; round < 3; round++)
        turn(&s);
    out[i] = s.a ^ s.b ^ s.c ^ s.d;
}
";

const CIPHER: &str = "// Four rounds of a small block cipher, forth and back.
#define DELTA 0x9e3779b9u

uint2 forth(uint2 v, uint4 key) {
    uint sum = 0;
    for (uint i = 0; i < 4; i++) {
        sum += DELTA;
        v.x += ((v.y << 4) + key.x) ^ (v.y + sum) ^ ((v.y >> 5) + key.y);
        v.y += ((v.x << 4) + key.z) ^ (v.x + sum) ^ ((v.x >> 5) + key.w);
    }
    return v;
}

uint2 back(uint2 v, uint4 key) {
    for (uint sum = DELTA << 2; sum; sum -= DELTA) {
        v.y -= ((v.x << 4) + key.z) ^ (v.x + sum) ^ ((v.x >> 5) + key.w);
        v.x -= ((v.y << 4) + key.x) ^ (v.y + sum) ^ ((v.y >> 5) + key.y);
    }
    return v;
}

__kernel void both(__global uint2 *blocks, uint4 key, __global uint2 *plain) {
    uint i = get_global_id(0);
    blocks[i] = forth(blocks[i], key);
    plain[i] = back(blocks[i], key);
}
";

#[test]
fn leave_their_buffers(rt: HostRuntime) -> Result<(), Fail> {
    let table: [(&str, &str, &str); 5] = [
        (
            SHIFT_HASH,
            "g 2 l 1 b 97 98 99 100 97 98 99 101 W 4 w 0 0",
            "b 97 98 99 100 97 98 99 101 w 2090069583 2090069584",
        ),
        (
            TWO_SUMS,
            "g 2 l 2 b 87 105 107 105 112 101 100 105 w 0 0",
            "b 87 105 107 105 112 101 100 105 w 64618901 69468579",
        ),
        (
            CHECK_BYTE,
            "g 3 l 1 b 1 2 3 255 49 50 b 0*3",
            "b 1 2 3 255 49 50 b 27 204 114",
        ),
        (
            WIDE_ROUNDS,
            "g 2 l 1 q 1 2 -1 7 Q 81985529216486895 q 0 0",
            "q 1 2 -1 7 q 9340632755242795241 9342040130127003881",
        ),
        (
            CIPHER,
            "g 2 l 2 w 1 2 -1 77 W 3 5 7 11 w 0*4",
            "w 372951419 3891699226 4122308899 40421925 w 1 2 -1 77",
        ),
    ];
    for (text, given, left) in table {
        assert!(rt; leaves(rt.alloc(), text, given, left, 1)?, "{text}");
        assert!(rt; leaves(rt.alloc(), text, given, left, 1_000_000)?, "{text}");
    }
    Ok(())
}
