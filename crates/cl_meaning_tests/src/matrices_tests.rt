//! Matrices and sums of groups.

use crate::driver::leaves;
use std::test::Fail;

const PRODUCT: &str = "// Two by three times three by two.
__kernel void product(__global const int *a, __global const int *b, __global int *c) {
    size_t i = get_global_id(1), j = get_global_id(0);
    int sum = 0;
    for (size_t k = 0; k < 3; k++)
        sum += a[i * 3 + k] * b[k * 2 + j];
    c[i * 2 + j] = sum;
}
";

const TURN: &str = "// Turns a matrix over, tile by tile through local memory.
__kernel void turn(__global const int *from, __global int *to, __local int *tile) {
    uint x = get_local_id(0), y = get_local_id(1), n = get_global_size(0);
    tile[y * 2 + x] = from[get_global_id(1) * n + get_global_id(0)];
    barrier(CLK_LOCAL_MEM_FENCE);
    uint left = get_group_id(1) * 2, top = get_group_id(0) * 2;
    to[(top + y) * n + left + x] = tile[x * 2 + y];
}
";

const DETERMINANTS: &str = "// Determinants of three rows, by the cross product.
typedef struct {
    int3 rows[3];
} matrix;

int3 crossed(int3 a, int3 b) {
    return a.yzx * b.zxy - a.zxy * b.yzx;
}

int dot3(int3 a, int3 b) {
    int3 p = a * b;
    return p.x + p.y + p.z;
}

__kernel void determinants(__global const matrix *all, __global int *out) {
    matrix m = all[get_global_id(0)];
    out[get_global_id(0)] = dot3(m.rows[0], crossed(m.rows[1], m.rows[2]));
}
";

const SCAN: &str = "// Running sums of each group, doubling the distance.
int fetch(__local const int *own, int i) {
    return i < 0 ? 0 : own[i];
}

__kernel void scan(__global int *all) {
    __local int own[4];
    int i = get_local_id(0), n = get_local_size(0);
    own[i] = all[get_global_id(0)];
    for (int apart = 1; apart < n; apart *= 2) {
        barrier(CLK_LOCAL_MEM_FENCE);
        int before = fetch(own, i - apart);
        barrier(CLK_LOCAL_MEM_FENCE);
        own[i] += before;
    }
    all[get_global_id(0)] = own[i];
}
";

const GREATEST: &str = "// The greatest of a group and where it first stands, by halves.
__kernel void greatest(__global const int *all, __local int2 *own, __global int *out) {
    uint i = get_local_id(0);
    if (i < 4) {
        int a = all[i], b = all[i + 4];
        own[i] = a >= b ? (int2)(a, i) : (int2)(b, i + 4);
    }
    for (uint apart = 2; apart; apart /= 2) {
        barrier(CLK_LOCAL_MEM_FENCE);
        if (i < apart && (own[i + apart].x > own[i].x || own[i + apart].x == own[i].x && own[i + apart].y < own[i].y))
            own[i] = own[i + apart];
    }
    barrier(CLK_LOCAL_MEM_FENCE);
    if (i == 0)
        vstore2(own[0], 0, out);
}
";

#[test]
fn leave_their_buffers(rt: HostRuntime) -> Result<(), Fail> {
    let table: [(&str, &str, &str); 5] = [
        (
            PRODUCT,
            "g 2 2 l 1 1 w 1 2 3 4 5 6 w 7 8 9 10 11 12 w 0*4",
            "w 1 2 3 4 5 6 w 7 8 9 10 11 12 w 58 64 139 154",
        ),
        (
            TURN,
            "g 4 4 l 2 2 w 0 1 2 3 4 5 6 7 8 9 10 11 12 13 14 15 w 0*16 m 16",
            "w 0 1 2 3 4 5 6 7 8 9 10 11 12 13 14 15 w 0 4 8 12 1 5 9 13 2 6 10 14 3 7 11 15",
        ),
        (
            DETERMINANTS,
            "g 2 l 1 w 1 2 3 0 4 5 6 0 7 8 10 0 2 0 0 0 0 3 0 0 0 0 -4 0 w 0 0",
            "w 1 2 3 0 4 5 6 0 7 8 10 0 2 0*4 3 0*4 -4 0 w -3 -24",
        ),
        (SCAN, "g 8 l 4 w 1 2 3 4 5 6 7 8", "w 1 3 6 10 5 11 18 26"),
        (
            GREATEST,
            "g 8 l 8 w 4 -9 17 3 17 -2 0 8 m 32 w 0 0",
            "w 4 -9 17 3 17 -2 0 8 w 17 2",
        ),
    ];
    for (text, given, left) in table {
        assert!(rt; leaves(rt.alloc(), text, given, left, 1)?, "{text}");
        assert!(rt; leaves(rt.alloc(), text, given, left, 1_000_000)?, "{text}");
    }
    Ok(())
}
