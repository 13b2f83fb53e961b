//! Pixels and counts.

use crate::driver::leaves;
use std::test::Fail;

const GREYS: &str = "// Grey tones of pixels by whole numbers, with rounding.
__constant ushort3 weights = (ushort3)(77, 150, 29);

__kernel void greys(__global const uchar4 *pixels, __global uchar *out) {
    size_t i = get_global_id(0);
    ushort3 p = convert_ushort3(pixels[i].xyz) * weights;
    out[i] = convert_uchar_sat((p.x + p.y + p.z + 128) >> 8);
}
";

const BRIGHTER: &str = "// Brighter and darker pixels, held within a byte.
__kernel void brighter(__global uchar4 *pixels, uchar by, __global uchar4 *dark) {
    size_t i = get_global_id(0);
    uchar4 p = pixels[i];
    pixels[i].xyz = add_sat(p, (uchar4)(by)).xyz;
    dark[i] = (uchar4)(sub_sat(p.s012, (uchar3)(by)), p.w);
}
";

const BLUR: &str = "// The mean of a pixel and those beside it; borders repeat.
uchar at(__global const uchar *image, int x, int y) {
    return image[clamp(y, 0, 1) * 3 + clamp(x, 0, 2)];
}

__kernel void blur(__global const uchar *image, __global uchar *out) {
    int x = get_global_id(0), y = get_global_id(1), sum = 0;
    for (int dy = -1; dy <= 1; dy++)
        for (int dx = -1; dx <= 1; dx++)
            sum += at(image, x + dx, y + dy);
    out[y * get_global_size(0) + x] = sum / 9;
}
";

const HISTOGRAM: &str = "// Counts in local memory, added up once a group.
__kernel void count(__global const uchar *values, __global uint *counts) {
    __local uint own[4];
    uint i = get_local_id(0);
    own[i] = 0;
    barrier(CLK_LOCAL_MEM_FENCE);
    atomic_inc(&own[values[get_global_id(0)]]);
    barrier(CLK_LOCAL_MEM_FENCE);
    atomic_add(counts + i, own[i]);
}
";

const MIRROR: &str = "// An image, each row from right to left, by groups of two by two.
__kernel void mirror(__global const ushort *image, __global ushort *out) {
    uint x = get_group_id(0) * get_local_size(0) + get_local_id(0);
    uint y = get_group_id(1) * get_local_size(1) + get_local_id(1);
    uint width = get_num_groups(0) * get_local_size(0);
    out[mad24(y, width, width - 1 - x)] = image[y * width + x];
}
";

#[test]
fn leave_their_buffers(rt: HostRuntime) -> Result<(), Fail> {
    let table: [(&str, &str, &str); 5] = [
        (
            GREYS,
            "g 3 l 1 b 255 0 0 9 10 200 30 8 255*4 b 0*3",
            "b 255 0 0 9 10 200 30 8 255*4 b 77 124 255",
        ),
        (
            BRIGHTER,
            "g 2 l 2 b 250 3 100 255 0 1 2 3 B 10 b 0*8",
            "b 255 13 110 255 10 11 12 3 b 240 0 90 255 0*3 3",
        ),
        (
            BLUR,
            "g 3 2 l 1 1 b 0 9 18 27 36 45 b 0*6",
            "b 0 9 18 27 36 45 b 12 18 24 21 27 33",
        ),
        (
            HISTOGRAM,
            "g 8 l 4 b 0 1 2 3 3 3 1 0 w 0*4",
            "b 0 1 2 3*3 1 0 w 2 2 1 3",
        ),
        (
            MIRROR,
            "g 4 2 l 2 2 h 1 2 3 4 5 6 7 8 h 0*8",
            "h 1 2 3 4 5 6 7 8 h 4 3 2 1 8 7 6 5",
        ),
    ];
    for (text, given, left) in table {
        assert!(rt; leaves(rt.alloc(), text, given, left, 1)?, "{text}");
        assert!(rt; leaves(rt.alloc(), text, given, left, 1_000_000)?, "{text}");
    }
    Ok(())
}
