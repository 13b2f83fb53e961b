//! Games, tables of best values, and masks.

use crate::driver::leaves;
use std::alloc::Global;
use std::test::Fail;

const CELLS: &str = "// One generation of cells on a torus.
__kernel void live(__global const uchar *now, __global uchar *next) {
    int w = get_global_size(0), h = get_global_size(1);
    int x = get_global_id(0), y = get_global_id(1), count = 0;
    for (int i = 0; i < 9; i++) {
        if (i == 4)
            continue;
        count += now[(y + i / 3 + h - 1) % h * w + (x + i % 3 + w - 1) % w];
    }
    next[y * w + x] = count == 3 || count == 2 && now[y * w + x];
}
";

const PACKING: &str = "// The greatest value that fits into six.
__kernel void pack(__global const int *weights, __global const int *values, __global int *out) {
    int best[7] = {0};
    for (int i = 0; i < 3; i++) {
        int weight = weights[i], value = values[i];
        for (int room = 6; room >= weight; room--)
            best[room] = max(best[room], best[room - weight] + value);
    }
    out[0] = best[6];
}
";

const DISTANCE: &str = "// How many edits lie between two words.
__kernel void distance(__global const uchar *a, __global const uchar *b, __global uint *out) {
    uint row[5];
    for (uint j = 0; j <= 4; j++)
        row[j] = j;
    for (uint i = 1; i <= 3; i++) {
        uint corner = row[0];
        row[0] = i;
        for (uint j = 1; j <= 4; j++) {
            uint edited = corner + (a[i - 1] != b[j - 1]);
            corner = row[j];
            row[j] = min(edited, min(corner, row[j - 1]) + 1);
        }
    }
    *out = row[4];
}
";

const QUEENS: &str = "// In how many ways four queens stand apart, by the place of the first.
__kernel void queens(__global uint *ways) {
    uint columns[5], left[5], right[5], open[5];
    for (uint first = 0; first < 4; first++) {
        uint bit = 1u << first, row = 1, found = 0;
        columns[1] = bit, left[1] = bit << 1, right[1] = bit >> 1;
        open[1] = 15 & ~(columns[1] | left[1] | right[1]);
        while (row) {
            if (!open[row]) {
                row--;
                continue;
            }
            bit = open[row] & -open[row];
            open[row] ^= bit;
            if (row == 3) {
                found++;
                continue;
            }
            columns[row + 1] = columns[row] | bit;
            left[row + 1] = (left[row] | bit) << 1;
            right[row + 1] = (right[row] | bit) >> 1;
            row++;
            open[row] = 15 & ~(columns[row] | left[row] | right[row]);
        }
        ways[first] = found;
    }
}
";

const POINTS: &str = "// Points that move within bounds and turn back at them.
typedef struct {
    short2 at, by;
} point;

short2 held(short2 at, int2 bounds, short2 *by) {
    if (at.x < 0 || at.x >= bounds.x)
        by->x = -by->x;
    if (at.y < 0 || at.y >= bounds.y)
        by->y = -by->y;
    return max(min(at, convert_short2(bounds) - (short2)(1)), (short2)(0));
}

__kernel void move(__global point *points, int2 bounds) {
    __global point *own = points + get_global_id(0);
    point p = *own;
    p.at = held(p.at + p.by, bounds, &p.by);
    *own = p;
}
";

const LEASTS: &str = "// The least of all by an atomic, and who has it by another.
__kernel void leasts(__global const int *all, __global int *out) {
    uint i = get_global_id(0);
    atomic_min(out, all[i]);
    barrier(CLK_GLOBAL_MEM_FENCE);
    if (all[i] == out[0])
        atomic_or(out + 1, 1 << i);
}
";

const CHOICES: &str = "// Vectors by masks, and what any and all say of them.
__kernel void choices(__global const int *given, __global int4 *out) {
    int i = get_global_id(0);
    int4 v = vload4(0, given), low = (int4)(i - 2), mask = v < low;
    out[i] = select(v, low, mask) + ((v & ~(int4)(1) | low & (int4)(1)) << 1);
    out[i].w = any(mask) * 2 + all(mask);
}
";

// In turns of one event, and of as many as an item asks.
fn leaves_in_turns(alloc: Global, text: &str, given: &str, left: &str) -> Result<bool, Fail> {
    Ok(leaves(alloc, text, given, left, 1)? && leaves(alloc, text, given, left, 1_000_000)?)
}

#[test]
fn lets_cells_live(rt: HostRuntime) -> Result<(), Fail> {
    let given = "g 4 3 l 4 3 b 0 1 0 0 0 1 0 0 0 1 0 0 b 0*12";
    let left = "b 0 1 0*3 1 0*3 1 0 0 b 1*3 0 1*3 0 1*3 0";
    assert!(rt; leaves_in_turns(rt.alloc(), CELLS, given, left)?);
    Ok(())
}

#[test]
fn places_queens(rt: HostRuntime) -> Result<(), Fail> {
    assert!(rt; leaves_in_turns(rt.alloc(), QUEENS, "w 0*4", "w 0 1 1 0")?);
    Ok(())
}

#[test]
fn packs_and_measures(rt: HostRuntime) -> Result<(), Fail> {
    assert!(rt;
        leaves_in_turns(
            rt.alloc(),
            PACKING,
            "w 2 3 4 w 3 4 6 w 0",
            "w 2 3 4 w 3 4 6 w 9"
        )?
    );
    assert!(rt;
        leaves_in_turns(
            rt.alloc(),
            DISTANCE,
            "b 1 2 3 b 2 3 4 5 w 0",
            "b 1 2 3 b 2 3 4 5 w 3"
        )?
    );
    Ok(())
}

#[test]
fn leave_their_buffers(rt: HostRuntime) -> Result<(), Fail> {
    let table: [(&str, &str, &str); 3] = [
        (
            POINTS,
            "g 2 l 2 h 1 2 10 -1 8 9 -3 2 W 10 10",
            "h 9 1 65526 65535 5 9 65533 65534",
        ),
        (LEASTS, "g 4 l 4 w 5 -2 8 -2 w 100 0", "w 5 -2 8 -2 w -2 10"),
        (
            CHOICES,
            "g 4 l 2 w 1 -2 3 -4 w 0*16",
            "w 1 -2 3 -4 w 1 -6 7 2 3 -3 9 2 1 -4 7 2 3 -1 9 2",
        ),
    ];
    for (text, given, left) in table {
        assert!(rt; leaves_in_turns(rt.alloc(), text, given, left)?, "{text}");
    }
    Ok(())
}
