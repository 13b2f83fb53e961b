//! Whole kernels, as they are written, and nodes of their trees.

use crate::common::verdict;
use cl_tree::{Function, Section, Shape, TExpr, TNode, TStmt, TStmtNode, Tree};
use cl_types::{BinOp, Builtin, Space, TypeTable, UnOp};
use std::test::Fail;

const FNV_HASH: &str = "// FNV-1a over the lines of a byte buffer, one line per work-item.
#define FNV_BASIS 2166136261u
#define FNV_PRIME 16777619u

uint fold(uint hash, uchar byte) {
    return (hash ^ byte) * FNV_PRIME;
}

__kernel void hash_lines(__global const uchar *bytes, __global const uint *starts,
                         __global uint *hashes, uint lines) {
    uint line = get_global_id(0);
    if (line >= lines) {
        return;
    }
    uint hash = FNV_BASIS;
    for (uint at = starts[line]; at < starts[line + 1]; at++) {
        hash = fold(hash, bytes[at]);
    }
    hashes[line] = hash;
}
";

const MURMUR_MIX: &str =
    "/* Block mixing in the manner of a 32-bit murmur hash, four lanes at once. */
typedef uint4 lanes;

lanes mix(lanes hash, lanes block) {
    block *= 0xcc9e2d51u;
    block = rotate(block, (lanes)(15u));
    block *= 0x1b873593u;
    hash ^= block;
    hash = rotate(hash, (lanes)(13u));
    return hash * 5u + 0xe6546b64u;
}

lanes finish(lanes hash, uint length) {
    hash ^= length;
    hash ^= hash >> 16;
    hash *= 0x85ebca6bu;
    hash ^= hash >> 13u;
    hash *= 0xc2b2ae35u;
    return hash ^ (hash >> (lanes)(16u));
}

__kernel void digest(__global const uint4 *blocks, __global uint4 *sums, uint count, uint seed) {
    size_t id = get_global_id(0), step = get_global_size(0);
    lanes hash = (lanes)(seed, seed + 1u, seed + 2u, seed + 3u);
    for (uint i = id; i < count; i += step)
        hash = mix(hash, blocks[i]);
    sums[id] = finish(hash, count * sizeof(lanes));
}
";

const BITONIC_STAGE: &str =
    "// One stage of a bitonic sort over a buffer whose length is a power of two.
__kernel void bitonic_stage(__global int *keys, __global uint *values, uint stage, uint pass) {
    uint id = get_global_id(0);
    uint half_size = 1u << pass;
    uint low = (id & (half_size - 1u)) | ((id & ~(half_size - 1u)) << 1);
    uint high = low | half_size;
    bool ascending = ((low >> (stage + 1u)) & 1u) == 0u;
    int a = keys[low], b = keys[high];
    if ((a > b) == ascending) {
        uint t = values[low];
        keys[low] = b;
        keys[high] = a;
        values[low] = values[high];
        values[high] = t;
    }
}
";

const INSERTION_SORT: &str =
    "// Sorts short rows in private memory: each item copies a row, sorts it and writes it back.
#define WIDTH 16

void swap(int *a, int *b) {
    int t = *a;
    *a = *b;
    *b = t;
}

void sort_row(int *row, int n) {
    for (int i = 1; i < n; ++i) {
        int j = i;
        while (j > 0 && row[j - 1] > row[j]) {
            swap(row + j, row + j - 1);
            --j;
        }
    }
}

kernel void sort_rows(global int *table, int rows) {
    int row = (int)get_global_id(0);
    if (row < rows) {
        int here[WIDTH];
        for (int i = 0; i < WIDTH; i++)
            here[i] = table[row * WIDTH + i];
        sort_row(here, WIDTH);
        for (int i = 0; i != WIDTH; i++) table[row * WIDTH + i] = here[i];
    }
}
";

const STENCIL_FIVE: &str = "// Five-point stencil with clamped borders.
int cell(__global const int *grid, int x, int y, int width, int height) {
    x = clamp(x, 0, width - 1);
    y = clamp(y, 0, height - 1);
    return grid[y * width + x];
}

__kernel __attribute__((work_group_size_hint(16, 16, 1)))
void diffuse(__global const int *from, __global int *to, int width, int height) {
    const int x = (int)get_global_id(0), y = (int)get_global_id(1);
    if (x >= width || y >= height) return;
    int middle = cell(from, x, y, width, height);
    int around = cell(from, x - 1, y, width, height) + cell(from, x + 1, y, width, height)
               + cell(from, x, y - 1, width, height) + cell(from, x, y + 1, width, height);
    to[y * width + x] = middle + (around - 4 * middle) / 8;
}
";

const LIFE: &str = "// One generation of Conway's game of life on a torus, a cell per work-item.
__constant char dx[8] = {-1, 0, 1, -1, 1, -1, 0, 1};
__constant char dy[8] = {-1, -1, -1, 0, 0, 1, 1, 1};

__kernel void generation(__global const uchar *now, __global uchar *next) {
    uint width = get_global_size(0), height = get_global_size(1);
    uint x = get_global_id(0), y = get_global_id(1);
    int alive = 0;
    for (int i = 0; i < 8; i++) {
        uint nx = (x + width + dx[i]) % width;
        uint ny = (y + height + dy[i]) % height;
        alive += now[ny * width + nx] != 0;
    }
    uchar self = now[y * width + x];
    switch (alive) {
        case 2: next[y * width + x] = self; break;
        case 3: next[y * width + x] = 1; break;
        default: next[y * width + x] = 0;
    }
}
";

const SCAN_BLOCKS: &str =
    "// Inclusive prefix sums within each group (Hillis and Steele), with the group's total.
#define GROUP 64

__kernel __attribute__((reqd_work_group_size(GROUP, 1, 1)))
void scan_blocks(__global const uint *in, __global uint *out, __global uint *totals) {
    __local uint ping[GROUP], pong[GROUP];
    uint item = get_local_id(0);
    ping[item] = in[get_global_id(0)];
    barrier(CLK_LOCAL_MEM_FENCE);
    __local uint *from = ping;
    bool flipped = false;
    for (uint step = 1; step < GROUP; step <<= 1) {
        uint sum;
        if (flipped) sum = pong[item] + (item >= step ? pong[item - step] : 0u);
        else sum = from[item] + (item >= step ? from[item - step] : 0u);
        barrier(CLK_LOCAL_MEM_FENCE);
        if (flipped) ping[item] = sum; else pong[item] = sum;
        flipped = !flipped;
        barrier(CLK_LOCAL_MEM_FENCE);
    }
    uint result = flipped ? pong[item] : ping[item];
    out[get_global_id(0)] = result;
    if (item == GROUP - 1) totals[get_group_id(0)] = result;
}
";

const REDUCE_TREE: &str =
    "// Sum, least and greatest of a buffer by a tree in local memory that the caller gives.
struct summary {
    long sum;
    int least, greatest;
};

struct summary join(struct summary a, struct summary b) {
    struct summary both = {a.sum + b.sum, min(a.least, b.least), max(a.greatest, b.greatest)};
    return both;
}

__kernel void reduce(__global const int *values, uint count, __local struct summary *tree,
                     __global struct summary *groups) {
    uint item = get_local_id(0), size = get_local_size(0);
    struct summary mine = {0, INT_MAX, INT_MIN};
    for (uint i = get_global_id(0); i < count; i += get_global_size(0)) {
        struct summary one = {values[i], values[i], values[i]};
        mine = join(mine, one);
    }
    tree[item] = mine;
    barrier(CLK_LOCAL_MEM_FENCE);
    for (uint half_size = size / 2; half_size > 0; half_size /= 2) {
        if (item < half_size)
            tree[item] = join(tree[item], tree[item + half_size]);
        barrier(CLK_LOCAL_MEM_FENCE);
    }
    if (item == 0) groups[get_group_id(0)] = tree[0];
}
";

const MATMUL_TILED: &str = "// C = A * B for square matrices of integers, in tiles of local memory.
#define TILE 8

__kernel __attribute__((reqd_work_group_size(TILE, TILE, 1)))
void multiply(__global const int *restrict a, __global const int *restrict b,
              __global int *restrict c, int n) {
    __local int left[TILE][TILE];
    __local int right[TILE][TILE];
    const int col = get_global_id(0), row = get_global_id(1);
    const int x = get_local_id(0), y = get_local_id(1);
    int sum = 0;
    for (int tile = 0; tile < n / TILE; tile++) {
        left[y][x] = a[row * n + tile * TILE + x];
        right[y][x] = b[(tile * TILE + y) * n + col];
        barrier(CLK_LOCAL_MEM_FENCE);
        for (int k = 0; k < TILE; k++)
            sum += left[y][k] * right[k][x];
        barrier(CLK_LOCAL_MEM_FENCE);
    }
    c[row * n + col] = sum;
}
";

const HISTOGRAM: &str =
    "// A histogram of bytes: private counts are gathered in local memory, and then in the buffer.
kernel void histogram(global const uchar *data, global uint *bins, uint count) {
    local uint tally[256];
    const uint item = get_local_id(0), items = get_local_size(0);

    for (uint bin = item; bin < 256; bin += items)
        tally[bin] = 0;
    barrier(CLK_LOCAL_MEM_FENCE);

    for (uint i = get_global_id(0); i < count; i += get_global_size(0))
        atomic_inc(&tally[data[i]]);
    barrier(CLK_LOCAL_MEM_FENCE);

    for (uint bin = item; bin < 256; bin += items) {
        uint found = tally[bin];
        if (found) atomic_add(bins + bin, found);
    }
}
";

const BIT_TRICKS: &str =
    "/* Bit tricks: reversal, Gray codes, Morton order, next permutation, parity. */
uint reverse(uint x) {
    x = (x >> 1 & 0x55555555u) | (x & 0x55555555u) << 1;
    x = (x >> 2 & 0x33333333u) | (x & 0x33333333u) << 2;
    x = (x >> 4 & 0x0f0f0f0fu) | (x & 0x0f0f0f0fu) << 4;
    return as_uint(as_uchar4(x).wzyx);
}

uint spread(uint x) {
    x = (x | x << 8) & 0x00ff00ffu;
    x = (x | x << 4) & 0x0f0f0f0fu;
    x = (x | x << 2) & 0x33333333u;
    return (x | x << 1) & 0x55555555u;
}

uint next_permutation(uint v) {
    uint t = v | (v - 1u);
    return (t + 1u) | (((~t & -~t) - 1u) >> (32u - clz(v & -v)));
}

__kernel void tricks(__global const ushort2 *in, __global uint *out) {
    const size_t i = get_global_id(0) * 5;
    ushort2 pair = in[get_global_id(0)];
    uint word = upsample(pair.hi, pair.lo);
    out[i] = reverse(word);
    out[i + 1] = word ^ word >> 1;
    out[i + 2] = spread(pair.x) | spread(pair.y) << 1;
    out[i + 3] = next_permutation(word | 1u);
    out[i + 4] = popcount(word) & 1u;
}
";

const BOX_BLUR: &str = "// A box blur of radius 1 over pixels of four bytes, with wide sums.
int4 wide(uchar4 p) {
    return convert_int4(p);
}

__kernel void box_blur(__global const uchar4 *in, __global uchar4 *out, int width, int height) {
    int x = get_global_id(0);
    int y = get_global_id(1);
    int4 sum = (int4)(0);
    int taken = 0;
    for (int dy = -1; dy <= 1; dy++) {
        for (int dx = -1; dx <= 1; dx++) {
            int px = x + dx, py = y + dy;
            if (px < 0 || py < 0 || px >= width || py >= height)
                continue;
            sum += wide(in[py * width + px]);
            taken++;
        }
    }
    out[y * width + x] = convert_uchar4_sat((sum + taken / 2) / taken);
}
";

const GREY_SEPIA: &str = "// Grey and sepia tones by whole numbers; the last component is kept.
typedef struct {
    uchar4 grey;
    uchar4 sepia;
} tones;

__constant ushort4 weights = (ushort4)((ushort)77, (ushort)150, (ushort)29, (ushort)0);

uchar shade(uchar4 p) {
    ushort4 parts = convert_ushort4(p) * weights;
    return (uchar)((parts.x + parts.y + parts.z) >> 8);
}

__kernel void tone(__global const uchar4 *in, __global tones *out, uchar strength) {
    uint i = get_global_id(0);
    uchar4 p = in[i];
    uchar g = shade(p);
    tones both;
    both.grey = (uchar4)(g, g, g, p.w);
    both.sepia.xyz = add_sat((uchar3)(g), (uchar3)(strength, (uchar)(strength / 2), (uchar)0));
    both.sepia.w = p.s3;
    out[i] = both;
}
";

const SOBEL: &str = "/* Edges by Sobel's operator on one channel; the border stays black. */
__constant int gx[3][3] = {{-1, 0, 1}, {-2, 0, 2}, {-1, 0, 1}};
__constant int gy[3][3] = {{-1, -2, -1}, {0, 0, 0}, {1, 2, 1}};

__kernel void sobel(__global const uchar *in, __global uchar *out, const uint width, const uint height)
{
    uint x = get_global_id(0), y = get_global_id(1);
    if (x == 0 || y == 0 || x + 1 >= width || y + 1 >= height)
    {
        if (x < width && y < height)
            out[y * width + x] = 0;
        return;
    }
    int h = 0, v = 0;
    for (int row = 0; row < 3; ++row)
        for (int col = 0; col < 3; ++col)
        {
            int p = in[(y + row - 1) * width + (x + col - 1)];
            h += gx[row][col] * p;
            v += gy[row][col] * p;
        }
    out[y * width + x] = convert_uchar_sat(abs(h) + abs(v));
}
";

const PARTICLES: &str =
    "// Particles in fixed point (24.8) that bounce in a box; structs with padding and nested parts.
typedef struct vec { int x, y; } vec;

struct particle {
    uchar kind;
    vec at;
    vec speed;
    short charge;
    long energy;
    char3 spin;
};

void bounce(int *at, int *speed, int limit) {
    *at += *speed;
    if (*at < 0 || *at > limit) {
        *speed = -*speed;
        *at = *at < 0 ? -*at : 2 * limit - *at;
    }
}

__kernel void step_particles(__global struct particle *all, vec box, uchar kind) {
    __global struct particle *one = &all[get_global_id(0)];
    if (one->kind != kind) return;
    vec at = one->at, speed = one->speed;
    bounce(&at.x, &speed.x, box.x << 8);
    bounce(&at.y, &speed.y, box.y << 8);
    one->at = at;
    one->speed = speed;
    one->energy = ((long)speed.x * speed.x + (long)speed.y * speed.y) >> 1;
    one->spin.zx = one->spin.xz;
    one->charge = -one->charge;
}
";

const CRC_TABLE: &str = "// CRC-32 by nibbles from a constant table.
__constant uint crc_nibble[16] = {
    0x00000000u, 0x1db71064u, 0x3b6e20c8u, 0x26d930acu, 0x76dc4190u, 0x6b6b51f4u, 0x4db26158u, 0x5005713cu,
    0xedb88320u, 0xf00f9344u, 0xd6d6a3e8u, 0xcb61b38cu, 0x9b64c2b0u, 0x86d3d2d4u, 0xa00ae278u, 0xbdbdf21cu,
};

static uint feed(uint crc, uchar byte)
{
    crc = crc_nibble[(crc ^ byte) & 15u] ^ (crc >> 4);
    return crc_nibble[(crc ^ (byte >> 4)) & 15u] ^ (crc >> 4);
}

__kernel void crc32_blocks(__global const uchar *bytes, __global uint *sums, uint block)
{
    __global const uchar *at = bytes + get_global_id(0) * block;
    uint crc = 0xffffffffu;
    for (uint left = block; left != 0; left--)
        crc = feed(crc, *at++);
    sums[get_global_id(0)] = ~crc;
}
";

const XORSHIFT: &str =
    "/* Random numbers by xorshift; the state is a struct that is passed by pointer. */
struct random { ulong low, high; };

ulong next(struct random *state) {
    ulong x = state->low, y = state->high;
    state->low = y;
    x ^= x << 23;
    state->high = x ^ y ^ (x >> 17) ^ (y >> 26);
    return state->high + y;
}

uint below(struct random *state, uint bound) {
    return (uint)(mul_hi((ulong)(uint)next(state) << 32, (ulong)bound));
}

__kernel void dice(__global uint *faces, ulong seed, uint throws) {
    struct random state = {seed ^ get_global_id(0), 0x9e3779b97f4a7c15ul};
    do {
        next(&state);
    } while ((state.low & 7) != 0);
    for (uint i = 0; i < throws; i++) {
        uint face = below(&state, 6u);
        atomic_inc(faces + face);
    }
}
";

const TRANSPOSE: &str =
    "// Transposes a matrix of pairs by tiles; the local argument has one column of padding.
#define SIDE 16
#define AT(row, col) ((row) * (SIDE + 1) + (col))

kernel void transpose(global const int2 *in, global int2 *out, local int2 *tile, int width, int height) {
    const int lx = get_local_id(0), ly = get_local_id(1);
    int x = get_group_id(0) * SIDE + lx;
    int y = get_group_id(1) * SIDE + ly;
    if (x < width && y < height)
        tile[AT(ly, lx)] = in[y * width + x];
    barrier(CLK_LOCAL_MEM_FENCE);
    x = get_group_id(1) * SIDE + lx;
    y = get_group_id(0) * SIDE + ly;
    if (x < height && y < width)
        out[y * height + x] = tile[AT(lx, ly)].yx;
}
";

const NQUEENS: &str =
    "// Counts the ways to place queens on the last rows of a board, by bit masks and a stack of its own.
#define ROWS 12
#define FULL ((1u << ROWS) - 1u)

__kernel void queens(__global const uint4 *starts, __global uint *found) {
    uint cols[ROWS + 1], left[ROWS + 1], right[ROWS + 1], free_places[ROWS + 1];
    uint4 start = starts[get_global_id(0)];
    uint total = 0u;
    int depth = 0;
    cols[0] = start.x;
    left[0] = start.y;
    right[0] = start.z;
    free_places[0] = FULL & ~(start.x | start.y | start.z);
    while (depth >= 0) {
        uint open_places = free_places[depth];
        if (open_places == 0u) { depth--; continue; }
        uint place = open_places & -open_places;
        free_places[depth] = open_places ^ place;
        uint c = cols[depth] | place;
        if (c == FULL) { total++; continue; }
        uint l = (left[depth] | place) << 1, r = (right[depth] | place) >> 1;
        depth++;
        cols[depth] = c;
        left[depth] = l;
        right[depth] = r;
        free_places[depth] = FULL & ~(c | l | r);
    }
    found[get_global_id(0)] = total;
}
";

const RADIX_PASS: &str = "/* Counting and scattering passes of a radix sort by four bits. */
#define DIGITS 16
#define DIGIT(key, shift) ((key) >> (shift) & (DIGITS - 1u))

__kernel void count_digits(__global const uint *keys, __global uint *counts, uint per_item, uint shift) {
    uint mine[DIGITS] = {0};
    uint id = get_global_id(0);
    for (uint i = 0; i < per_item; i++)
        mine[DIGIT(keys[id * per_item + i], shift)]++;
    for (uint d = 0; d < DIGITS; d++)
        counts[d * get_global_size(0) + id] = mine[d];
}

__kernel void scatter(__global const uint *keys, __global uint *sorted, __global const uint *offsets,
                      uint per_item, uint shift) {
    uint next[DIGITS];
    uint id = get_global_id(0);
    for (uint d = 0; d < DIGITS; d++)
        next[d] = offsets[d * get_global_size(0) + id];
    for (uint i = 0; i < per_item; i++) {
        uint key = keys[id * per_item + i];
        sorted[next[DIGIT(key, shift)]++] = key;
    }
}
";

const LEVENSHTEIN: &str =
    "// The edit distance of a word to each word of a list, in one row of private memory.
#define MOST 32

uchar least3(uchar a, uchar b, uchar c) { return min(min(a, b), c); }

__kernel void distances(__constant uchar *word, uint length, __global const uchar *list,
                        __global uchar *out) {
    uchar row[MOST + 1];
    __global const uchar *other = list + get_global_id(0) * MOST;
    if (length > MOST) { out[get_global_id(0)] = UCHAR_MAX; return; }
    for (uint j = 0; j <= length; j++) row[j] = (uchar)j;
    uint i = 0;
    for (; i < MOST; i++) {
        uchar c = other[i];
        if (!c) break;
        uchar corner = row[0];
        row[0] = (uchar)(i + 1u);
        for (uint j = 1; j <= length; j++) {
            uchar above = row[j];
            row[j] = least3((uchar)(above + 1), (uchar)(row[j - 1] + 1), (uchar)(corner + (word[j - 1] != c)));
            corner = above;
        }
    }
    out[get_global_id(0)] = row[length];
}
";

const JULIA_FIXED: &str = "// Julia sets in fixed point with 28 bits behind the point.
#define POINT 28
#define ONE (1L << POINT)

typedef long2 complex;

complex square(complex z) {
    return (complex)((z.x * z.x - z.y * z.y) >> POINT, (z.x * z.y) >> (POINT - 1));
}

bool outside(complex z) {
    long2 s = (z >> (long2)(POINT / 2)) * (z >> (POINT / 2));
    return s.x + s.y > 4 * ONE;
}

__kernel void julia(__global uchar4 *image, complex c, uint steps) {
    long w = get_global_size(0), h = get_global_size(1);
    complex z = (complex)(get_global_id(0), get_global_id(1)) * (complex)(4 * ONE / w, 4 * ONE / h) - 2 * ONE;
    uint n = 0;
    while (n < steps && !outside(z)) {
        z = square(z) + c;
        n++;
    }
    uchar v = n < steps ? (uchar)(255u * n / steps) : 0;
    image[get_global_id(1) * w + get_global_id(0)] = (uchar4)(v, (uchar)(v >> 1), (uchar)~v, (uchar)255);
}
";

const BIG_ADD: &str = "// Adds and compares numbers of 256 bits, each in eight limbs.
#define LIMBS 8
typedef struct { uint limb[LIMBS]; } big;

uint add_to(uint *sum, __global const big *b) {
    ulong carry = 0;
    for (int i = 0; i < LIMBS; i++) {
        carry += (ulong)sum[i] + b->limb[i];
        sum[i] = (uint)carry;
        carry >>= 32;
    }
    return carry;
}

int compare(const uint *a, __global const big *b) {
    for (int i = LIMBS; i-- > 0;)
        if (a[i] != b->limb[i])
            return a[i] < b->limb[i] ? -1 : 1;
    return 0;
}

__kernel void add_all(__global const big *a, __global const big *b, __global big *sums, __global char *flags) {
    int at = (int)get_global_id(0);
    big sum = a[at];
    uint carry = add_to(sum.limb, b + at);
    sums[at] = sum;
    flags[at] = (char)((int)carry * 2 + (compare(sum.limb, &a[at]) < 0));
}
";

const QUEUE_FILL: &str =
    "/* Breadth-first flood fill: each step reads one queue and fills the next. */
struct queue_head { uint taken, filled; };

bool claim(__global int *owner, uint cell, int colour) {
    return atomic_cmpxchg(owner + cell, 0, colour) == 0;
}

__kernel void flood(__global const uchar *walls, __global int *owner, __global const uint *now,
                    __global uint *next, __global uint *filled, uint count, uint width, int colour) {
    uint at = get_global_id(0);
    if (at >= count)
        return;
    uint cell = now[at];
    uint neighbours[4] = {cell - 1u, cell + 1u, cell - width, cell + width};
    for (uint side = 0; side < sizeof(neighbours) / sizeof(neighbours[0]); side++) {
        uint other = neighbours[side];
        if (walls[other] || !claim(owner, other, colour))
            continue;
        uint slot = atomic_inc(filled);
        next[slot] = other;
    }
    mem_fence(CLK_GLOBAL_MEM_FENCE);
}
";

const AES_ROUND: &str =
    "// Columns of a block cipher: multiplication in a field of 256 elements, with vectors of bytes.
uchar4 twice(uchar4 v) {
    char4 top = as_char4(v) < (char)0;
    return (v << (uchar)1) ^ (as_uchar4(top) & (uchar)0x1b);
}

uchar4 mix_column(uchar4 c) {
    uchar4 d = twice(c);
    uchar4 t = d ^ c.yzwx ^ c.zwxy ^ c.wxyz;
    t ^= d.yzwx;
    return t;
}

void shift_rows(uchar4 *s) {
    uchar4 a = s[0], b = s[1], c = s[2], d = s[3];
    s[0] = (uchar4)(a.x, b.y, c.z, d.w);
    s[1] = (uchar4)(b.x, c.y, d.z, a.w);
    s[2] = (uchar4)(c.x, d.y, a.z, b.w);
    s[3] = (uchar4)(d.x, a.y, b.z, c.w);
}

__kernel void round_of(__global uchar4 *blocks, __constant uchar4 *key) {
    uchar4 s[4];
    __global uchar4 *block = blocks + 4 * get_global_id(0);
    for (int i = 0; i < 4; i++) s[i] = block[i] ^ key[i];
    shift_rows(s);
    for (int i = 0; i < 4; i++) block[i] = mix_column(s[i]);
}
";

const KNAPSACK: &str =
    "// One item of the knapsack problem: the rows of best values are kept in two buffers.
struct item { ushort weight; uint value; };

__constant struct item spare[3] = {{3, 40}, {1, 12}, {2, 25}};

uint best(__global const uint *row, uint room, struct item one) {
    uint without = row[room];
    if (one.weight > room) return without;
    uint with = row[room - one.weight] + one.value;
    return max(without, with);
}

__kernel void knapsack_row(__global const uint *from, __global uint *to, __global const struct item *items,
                           int index) {
    uint room = get_global_id(0);
    struct item one;
    if (index < 0) one = spare[-index % 3];
    else one = items[index];
    to[room] = best(from, room, one);
}
";

const INTERPRETER: &str =
    "/* A small stack machine: each item runs a program of bytes on its own input. */
#define PUSH 1
#define ADD 2
#define MUL 3
#define DUP 4
#define JNZ 5
#define HALT 0

__kernel void interpret(__constant char *code, uint length, __global int *io) {
    int stack[8];
    int top = 0;
    uint at = 0;
    stack[0] = io[get_global_id(0)];
    for (uint budget = 1000; budget && at < length; budget--) {
        char op = code[at++];
        switch (op) {
            case HALT: at = length; break;
            case PUSH: stack[++top & 7] = code[at++]; break;
            case ADD: { int b = stack[top-- & 7]; stack[top & 7] += b; break; }
            case MUL: stack[(top - 1) & 7] *= stack[top & 7]; top--; break;
            case DUP: { int t = stack[top & 7]; ++top; stack[top & 7] = t; } break;
            case JNZ: if (stack[top-- & 7]) { at += code[at]; continue; }
            default: at++;
        }
    }
    io[get_global_id(0)] = stack[top & 7];
}
";

// A node without its operands. Of a selection its components are told, in the order written.
#[derive(Clone, Copy, PartialEq, Eq, Debug)]
enum Head<'a> {
    Param(u32),
    Var(u32),
    Constant(u32),
    Number(u64),
    Convert,
    Unary(UnOp),
    Binary(BinOp),
    Assign(Option<BinOp>),
    Cond,
    Vector,
    Call(u32),
    Builtin(Builtin),
    Index,
    Member(u32),
    Components(&'a [u8]),
    Fill,
    Comma,
}

// What a type is, told without the numbers of other types: integers by the bits of a component, whether it is signed and
// how many there are, an array by its length, a pointer by its address space.
#[derive(Clone, Copy, PartialEq, Eq, Debug)]
enum Sort {
    Void,
    Bool,
    Integers(u8, bool, u8),
    Array(u32),
    Struct,
    Pointer(Space),
}

const CHAR2: Sort = Sort::Integers(8, true, 2);

const UCHAR: Sort = Sort::Integers(8, false, 1);

const UCHAR3: Sort = Sort::Integers(8, false, 3);

const UCHAR4: Sort = Sort::Integers(8, false, 4);

const SHORT: Sort = Sort::Integers(16, true, 1);

const USHORT: Sort = Sort::Integers(16, false, 1);

const INT: Sort = Sort::Integers(32, true, 1);

const INT2: Sort = Sort::Integers(32, true, 2);

const INT4: Sort = Sort::Integers(32, true, 4);

const UINT: Sort = Sort::Integers(32, false, 1);

const UINT4: Sort = Sort::Integers(32, false, 4);

const LONG: Sort = Sort::Integers(64, true, 1);

const LONG2: Sort = Sort::Integers(64, true, 2);

const ULONG: Sort = Sort::Integers(64, false, 1);

const GLOBAL: Sort = Sort::Pointer(Space::Global);

const LOCAL: Sort = Sort::Pointer(Space::Local);

const PRIVATE: Sort = Sort::Pointer(Space::Private);

// `convert_uchar4_sat`
const TO_BYTES: Builtin = Builtin::Convert {
    bits: 8,
    signed: false,
    sat: true,
};

// A node by the path to it from the body of the last function, with its type. A number of the path is that of an item
// of a block, an arm, a statement of a loop, a section or a statement of it, or an operand. `of` leads from a statement
// to its first value, its condition or its only expression, and `next` to what a loop does after each round.
type Node<'a> = (&'a str, Head<'a>, Sort);

// A text; its functions and its constants; the parameters, the variables and the statements of its last function; and
// nodes of that.
type Kernel<'a> = (&'a str, [usize; 5], [Node<'a>; 3]);

const KERNELS: [Kernel<'static>; 27] = [
    (
        FNV_HASH,
        [2, 0, 4, 3, 5],
        [
            ("3 of 1 1 1", Head::Convert, UINT),
            ("3 0 0 of 1 1", Head::Index, UCHAR),
            ("4 of", Head::Assign(None), UINT),
        ],
    ),
    (
        MURMUR_MIX,
        [3, 0, 4, 4, 5],
        [
            ("2 of", Head::Vector, UINT4),
            ("3 next", Head::Assign(Some(BinOp::Add)), UINT),
            ("4 of 1 1 1", Head::Number(16), UINT),
        ],
    ),
    (
        BITONIC_STAGE,
        [1, 0, 4, 8, 8],
        [
            ("2 of 1 1", Head::Number(1), INT),
            ("4 of", Head::Convert, Sort::Bool),
            ("7 of 1", Head::Convert, INT),
        ],
    ),
    (
        INSERTION_SORT,
        [3, 0, 2, 4, 2],
        [
            ("1 0 1 0 of 1 1", Head::Binary(BinOp::Add), INT),
            ("1 0 2 of", Head::Call(1), Sort::Void),
            ("1 0 2 of 0", Head::Convert, PRIVATE),
        ],
    ),
    (
        STENCIL_FIVE,
        [2, 0, 4, 4, 6],
        [
            ("0 of", Head::Convert, INT),
            ("3 of", Head::Call(0), INT),
            ("5 of 1 1", Head::Binary(BinOp::Div), INT),
        ],
    ),
    (
        LIFE,
        [1, 2, 2, 9, 8],
        [
            ("5 0 0 of 0 1", Head::Convert, UINT),
            ("5 0 0 of 0 1 0 0", Head::Constant(0), Sort::Array(8)),
            ("7 1 0 of 1", Head::Convert, UCHAR),
        ],
    ),
    (
        SCAN_BLOCKS,
        [1, 0, 3, 8, 11],
        [
            ("5 of", Head::Convert, LOCAL),
            ("7 0 1 0 of 1 1", Head::Cond, UINT),
            ("7 0 4 of 1", Head::Convert, Sort::Bool),
        ],
    ),
    (
        REDUCE_TREE,
        [2, 0, 4, 6, 8],
        [
            ("2 of", Head::Fill, Sort::Struct),
            ("2 of 0", Head::Convert, LONG),
            ("7 0 of 1", Head::Index, Sort::Struct),
        ],
    ),
    (
        MATMUL_TILED,
        [1, 0, 4, 9, 9],
        [
            ("7 0 0 of 0 0", Head::Index, Sort::Array(8)),
            ("7 0 3 0 of 1", Head::Binary(BinOp::Mul), INT),
            ("8 of 0 0", Head::Param(2), GLOBAL),
        ],
    ),
    (
        HISTOGRAM,
        [1, 0, 3, 7, 8],
        [
            ("5 0 of 0", Head::Unary(UnOp::Address), LOCAL),
            ("5 0 of 0 0 1", Head::Index, UCHAR),
            ("7 0 1 0 of", Head::Builtin(Builtin::AtomicAdd), UINT),
        ],
    ),
    (
        BIT_TRICKS,
        [4, 0, 2, 3, 8],
        [
            ("2 of 0", Head::Components(b"\x01"), USHORT),
            ("4 of 1 1 1", Head::Number(1), INT),
            ("5 of 1 0 0", Head::Convert, UINT),
        ],
    ),
    (
        BOX_BLUR,
        [2, 0, 4, 8, 6],
        [
            ("2 of 0", Head::Number(0), INT),
            ("5 of 1", Head::Builtin(TO_BYTES), UCHAR4),
            ("5 of 1 0 0 1", Head::Convert, INT4),
        ],
    ),
    (
        GREY_SEPIA,
        [2, 1, 3, 4, 8],
        [
            ("4 of 0", Head::Member(0), UCHAR4),
            ("5 of 0", Head::Components(b"\x00\x01\x02"), UCHAR3),
            ("5 of 1 1 1 0 0", Head::Convert, INT),
        ],
    ),
    (
        SOBEL,
        [1, 2, 4, 7, 7],
        [
            ("2 of 0 0 0 1", Head::Convert, UINT),
            ("5 0 0 1 of 1 0", Head::Index, INT),
            ("6 of 1 0", Head::Binary(BinOp::Add), UINT),
        ],
    ),
    (
        PARTICLES,
        [2, 0, 3, 3, 11],
        [
            ("8 of 1 0 0 1", Head::Convert, LONG),
            ("9 of 0", Head::Components(b"\x02\x00"), CHAR2),
            ("10 of 1", Head::Convert, SHORT),
        ],
    ),
    (
        CRC_TABLE,
        [2, 1, 3, 3, 4],
        [
            ("0 of", Head::Binary(BinOp::Add), GLOBAL),
            ("0 of 1", Head::Binary(BinOp::Mul), UINT),
            ("2 0 of 1 1 0", Head::Unary(UnOp::PostInc), GLOBAL),
        ],
    ),
    (
        XORSHIFT,
        [3, 0, 3, 3, 3],
        [
            ("0 of 0 1", Head::Convert, ULONG),
            ("1 0 0 of 0", Head::Unary(UnOp::Address), PRIVATE),
            ("1 of 0 1", Head::Convert, ULONG),
        ],
    ),
    (
        TRANSPOSE,
        [1, 0, 5, 4, 9],
        [
            ("2 of", Head::Convert, INT),
            ("2 of 0 1", Head::Convert, UINT),
            ("8 0 of 1", Head::Components(b"\x01\x00"), INT2),
        ],
    ),
    (
        NQUEENS,
        [1, 0, 2, 12, 13],
        [
            ("10 of 1 1", Head::Unary(UnOp::Not), UINT),
            ("11 0 2 of 1", Head::Unary(UnOp::Minus), UINT),
            ("11 0 5 0 0 of", Head::Unary(UnOp::PostInc), UINT),
        ],
    ),
    (
        RADIX_PASS,
        [2, 0, 5, 5, 4],
        [
            ("2 of 1", Head::Convert, UINT),
            ("3 0 1 of 0 1", Head::Unary(UnOp::PostInc), UINT),
            ("3 0 1 of 0 1 0 1 1 0", Head::Convert, UINT),
        ],
    ),
    (
        LEVENSHTEIN,
        [2, 0, 4, 8, 7],
        [
            ("3 0 of 1", Head::Convert, UCHAR),
            ("5 0 1 of", Head::Unary(UnOp::LogicalNot), INT),
            ("5 0 4 0 1 of 1 2 0 1", Head::Binary(BinOp::NotEqual), INT),
        ],
    ),
    (
        JULIA_FIXED,
        [3, 0, 3, 5, 7],
        [
            ("2 of 1", Head::Convert, LONG2),
            ("5 of 0 1", Head::Convert, INT),
            ("5 of 0 1 0", Head::Convert, UCHAR),
        ],
    ),
    (
        BIG_ADD,
        [3, 0, 4, 3, 5],
        [
            ("2 of 0", Head::Convert, PRIVATE),
            ("2 of 1", Head::Binary(BinOp::Add), GLOBAL),
            ("4 of 1 0 1 0", Head::Call(1), INT),
        ],
    ),
    (
        QUEUE_FILL,
        [2, 0, 8, 6, 6],
        [
            ("3 of", Head::Fill, Sort::Array(4)),
            ("4 0 1 of 1 0", Head::Call(0), Sort::Bool),
            ("4 of 1 0", Head::Number(16), UINT),
        ],
    ),
    (
        AES_ROUND,
        [4, 0, 2, 4, 5],
        [
            ("1 of 1 0", Head::Convert, UINT),
            ("3 of 0", Head::Convert, PRIVATE),
            ("4 0 of 1 0", Head::Index, UCHAR4),
        ],
    ),
    (
        KNAPSACK,
        [2, 1, 4, 2, 4],
        [
            ("2 0 of 1 0", Head::Constant(0), Sort::Array(3)),
            ("2 1 of 1", Head::Index, Sort::Struct),
            ("3 of 1 2", Head::Var(1), Sort::Struct),
        ],
    ),
    (
        INTERPRETER,
        [1, 0, 3, 7, 6],
        [
            ("4 0 1 of", Head::Convert, INT),
            ("4 0 1 5 0 of", Head::Index, INT),
            ("4 0 1 5 0 0 0 of 1", Head::Convert, UINT),
        ],
    ),
];

// Where a path leads.
#[derive(Clone, Copy)]
enum At<'a> {
    Statement(&'a TStmt),
    Section(&'a Section),
    Expression(&'a TExpr),
}

fn statement<'a>(found: Option<&'a TStmt>) -> Option<At<'a>> {
    match found {
        Some(s) => Some(At::Statement(s)),
        None => None,
    }
}

fn section<'a>(found: Option<&'a Section>) -> Option<At<'a>> {
    match found {
        Some(s) => Some(At::Section(s)),
        None => None,
    }
}

fn expression<'a>(found: Option<&'a TExpr>) -> Option<At<'a>> {
    match found {
        Some(e) => Some(At::Expression(e)),
        None => None,
    }
}

// A statement in a statement.
fn inner<'a>(s: &'a TStmt, k: usize) -> Option<&'a TStmt> {
    match &s.node {
        TStmtNode::Block(items) => items.get(k),
        TStmtNode::If { arms, .. } => arms.get(k),
        TStmtNode::While { body, .. } => body.get(k),
        TStmtNode::Do { body, .. } => body.get(k),
        TStmtNode::For { body, .. } => body.get(k),
        _ => None,
    }
}

fn part<'a>(s: &'a TStmt, k: usize) -> Option<At<'a>> {
    match &s.node {
        TStmtNode::Switch { sections, .. } => section(sections.get(k)),
        _ => statement(inner(s, k)),
    }
}

// A statement's first value, its condition or its only expression.
fn value_of<'a>(s: &'a TStmt) -> Option<&'a TExpr> {
    match &s.node {
        TStmtNode::Decl { init, .. } => init.as_ref(),
        TStmtNode::Expr(e) => Some(e),
        TStmtNode::If { cond, .. } => Some(cond),
        TStmtNode::While { cond, .. } => Some(cond),
        TStmtNode::Do { cond, .. } => Some(cond),
        TStmtNode::For { cond, .. } => Some(cond),
        TStmtNode::Switch { value, .. } => Some(value),
        TStmtNode::Return(e) => e.as_ref(),
        _ => None,
    }
}

// What a loop does after each round.
fn next_of<'a>(s: &'a TStmt) -> Option<&'a TExpr> {
    match &s.node {
        TStmtNode::For { next, .. } => next.as_ref(),
        _ => None,
    }
}

fn operand<'a>(e: &'a TExpr, k: usize) -> Option<&'a TExpr> {
    match &e.node {
        TNode::Param(_) => None,
        TNode::Var(_) => None,
        TNode::Constant(_) => None,
        TNode::Number(_) => None,
        TNode::Convert(args) => args.get(k),
        TNode::Unary { args, .. } => args.get(k),
        TNode::Binary { args, .. } => args.get(k),
        TNode::Assign { args, .. } => args.get(k),
        TNode::Cond(args) => args.get(k),
        TNode::Vector(args) => args.get(k),
        TNode::Call { args, .. } => args.get(k),
        TNode::Builtin { args, .. } => args.get(k),
        TNode::Index(args) => args.get(k),
        TNode::Member { args, .. } => args.get(k),
        TNode::Components { args, .. } => args.get(k),
        TNode::Fill(args) => args.get(k),
        TNode::Comma(args) => args.get(k),
    }
}

fn numbered<'a>(at: At<'a>, k: usize) -> Option<At<'a>> {
    match at {
        At::Statement(s) => part(s, k),
        At::Section(s) => statement(s.body.get(k)),
        At::Expression(e) => expression(operand(e, k)),
    }
}

fn step<'a>(at: At<'a>, word: &str) -> Option<At<'a>> {
    if let Ok(k) = word.parse::<usize>() {
        return numbered(at, k);
    }
    match (at, word) {
        (At::Statement(s), "of") => expression(value_of(s)),
        (At::Statement(s), "next") => expression(next_of(s)),
        _ => None,
    }
}

fn walk<'a>(body: &'a TStmt, path: &str) -> Option<&'a TExpr> {
    let mut at = At::Statement(body);
    for word in path.split(" ") {
        let Some(next) = step(at, word) else {
            return None;
        };
        at = next;
    }
    match at {
        At::Expression(e) => Some(e),
        _ => None,
    }
}

fn head_of<'a>(e: &'a TExpr) -> Head<'a> {
    match &e.node {
        TNode::Param(k) => Head::Param(*k),
        TNode::Var(k) => Head::Var(*k),
        TNode::Constant(k) => Head::Constant(*k),
        TNode::Number(bits) => Head::Number(bits.value),
        TNode::Convert(_) => Head::Convert,
        TNode::Unary { op, .. } => Head::Unary(*op),
        TNode::Binary { op, .. } => Head::Binary(*op),
        TNode::Assign { op, .. } => Head::Assign(*op),
        TNode::Cond(_) => Head::Cond,
        TNode::Vector(_) => Head::Vector,
        TNode::Call { function, .. } => Head::Call(*function),
        TNode::Builtin { builtin, .. } => Head::Builtin(*builtin),
        TNode::Index(_) => Head::Index,
        TNode::Member { member, .. } => Head::Member(*member),
        TNode::Components { at, .. } => Head::Components(at.as_slice()),
        TNode::Fill(_) => Head::Fill,
        TNode::Comma(_) => Head::Comma,
    }
}

fn sort_of(shape: Shape) -> Sort {
    match shape {
        Shape::Void => Sort::Void,
        Shape::Bool => Sort::Bool,
        Shape::Integers(t) => Sort::Integers(t.bits, t.signed, t.count),
        Shape::Array { len, .. } => Sort::Array(len),
        Shape::Struct => Sort::Struct,
        Shape::Pointer { space, .. } => Sort::Pointer(space),
    }
}

// The node at the end of a path, with its type.
fn found<'a>(types: &TypeTable, body: &'a TStmt, path: &str) -> Option<(Head<'a>, Sort)> {
    let Some(e) = walk(body, path) else {
        return None;
    };
    if (e.ty.0 as usize) < types.len() {
        Some((head_of(e), sort_of(Shape::of(types, e.ty))))
    } else {
        None
    }
}

// The path to the first node that isn't as it should be.
fn first_other<'a>(types: &TypeTable, body: &TStmt, nodes: [Node<'a>; 3]) -> Option<&'a str> {
    for (path, head, sort) in nodes {
        if found(types, body, path) != Some((head, sort)) {
            return Some(path);
        }
    }
    None
}

fn statements(body: &TStmt) -> usize {
    match &body.node {
        TStmtNode::Block(items) => items.len(),
        _ => 0,
    }
}

fn counts(tree: &Tree, f: &Function) -> [usize; 5] {
    [
        tree.functions.len(),
        tree.constants.len(),
        f.params.len(),
        f.vars.len(),
        statements(&f.body),
    ]
}

#[test]
fn whole_kernels_type(rt: HostRuntime) -> Result<(), Fail> {
    for (text, wanted, nodes) in KERNELS {
        let tree = verdict(rt.alloc(), text.as_bytes())?;
        let Some(f) = tree.functions.as_slice().last() else {
            return Err("no function".into());
        };
        let name = f.name.as_slice();
        assert_eq!(rt; counts(&tree, f), wanted, "{name:?}");
        assert_eq!(rt; first_other(&tree.types, &f.body, nodes), None, "{name:?}");
    }
    Ok(())
}
