//! Bytes of texts, and a machine that reads them.

use crate::driver::leaves;
use std::test::Fail;

const RUNS: &str = "// Runs of equal bytes, as lengths and values.
__kernel void runs(__global const uchar *text, __global uchar *out) {
    uint at = 0, i = 0;
    while (i < 6) {
        uchar value = text[i], length = 0;
        while (i < 6 && text[i] == value)
            length++, i++;
        out[at++] = length;
        out[at++] = value;
    }
}
";

const HEX_DIGITS: &str = "// Two digits for each byte.
__constant uchar digits[] = {48, 49, 50, 51, 52, 53, 54, 55, 56, 57, 'a', 'b', 'c', 'd', 'e', 'f'};

__kernel void hex(__global const uchar *bytes, __global uchar2 *out) {
    uchar byte = bytes[get_global_id(0)];
    out[get_global_id(0)] = (uchar2)(digits[byte >> 4], digits[byte & 15]);
}
";

const MIRRORED: &str = "// Whether four bytes read the same from both ends.
bool same(__global const uchar *low, __global const uchar *high) {
    for (; low < high; low++, high--)
        if (*low != *high)
            return false;
    return true;
}

__kernel void mirrored(__global const uchar *words, __global uchar *out) {
    __global const uchar *word = &words[get_global_id(0) * 4];
    out[get_global_id(0)] = same(word, word + 3);
}
";

const WORDS: &str = "// Counts words, lines and digits, by a switch in a loop.
__kernel void words(__global const char *text, __global int *out) {
    int counts[3] = {0, 0, 0};
    bool inside = false;
    for (int i = 0; i < 8; i++) {
        switch (text[i]) {
        case '\\n':
            counts[1]++;
        case ' ':
        case '\\t':
            inside = false;
            break;
        case '0':
            counts[2] += 1;
        default:
            if (!inside)
                counts[0]++;
            inside = true;
        }
    }
    for (int i = 0; i < 3; i++)
        out[i] = counts[i];
}
";

const MACHINE: &str = "// A stack machine whose program is a constant.
#define PUSH 0
#define FIRST 1
#define SECOND 2
#define PLUS 3
#define MINUS 4
#define TIMES 5
#define HALT 6
__constant uchar program[] = {PUSH, 2, FIRST, TIMES, SECOND, PLUS, PUSH, 9, MINUS, HALT};

int execute(int first, int second) {
    int stack[4];
    int *top = stack;
    for (int at = 0;; at++)
        switch (program[at]) {
        case PUSH:
            *top++ = program[++at];
            break;
        case FIRST:
            *top++ = first;
            break;
        case SECOND:
            *top++ = second;
            break;
        case PLUS:
            top--;
            top[-1] += *top;
            break;
        case MINUS:
            top--;
            top[-1] -= *top;
            break;
        case TIMES:
            top--;
            *(top - 1) *= *top;
            break;
        default:
            return *--top;
        }
}

__kernel void run(__global const int *numbers, __global int *out) {
    int i = get_global_id(0);
    out[i] = execute(numbers[2 * i], numbers[2 * i + 1]);
}
";

const BALANCE: &str = "// The greatest depth of brackets, or 255 where they do not match.
uchar depth_of(__global const uchar *text, uint n) {
    uchar depth = 0, greatest = 0;
    while (n--) {
        uchar c = *text++;
        if (c == 1)
            greatest = max(greatest, ++depth);
        else if (c == 2 && !depth--)
            return 255;
    }
    return depth ? 255 : greatest;
}

__kernel void depths(__global const uchar *texts, __global uchar *out) {
    out[get_global_id(0)] = depth_of(texts + 4 * get_global_id(0), 4);
}
";

#[test]
fn leave_their_buffers(rt: HostRuntime) -> Result<(), Fail> {
    let table: [(&str, &str, &str); 6] = [
        (RUNS, "b 7 7 7 1 2 2 b 0*8", "b 7*3 1 2 2 b 3 7 1 1 2 2 0 0"),
        (
            HEX_DIGITS,
            "g 3 l 3 b 0 171 255 b 0*6",
            "b 0 171 255 b 48 48 97 98 102 102",
        ),
        (
            MIRRORED,
            "g 3 l 1 b 1 2 2 1 1 2 3 1 5 5 5 5 b 0*3",
            "b 1 2 2 1 1 2 3 1 5*4 b 1 0 1",
        ),
        (
            WORDS,
            "b 97 98 32 32 99 10 100 48 w 0*3",
            "b 97 98 32 32 99 10 100 48 w 3 1 1",
        ),
        (MACHINE, "g 2 l 1 w 6 7 3 -5 w 0 0", "w 6 7 3 -5 w 10 -8"),
        (
            BALANCE,
            "g 3 l 3 b 1 2 1 2 1 1 2 2 2 1 2 1 b 0*3",
            "b 1 2 1 2 1 1 2*3 1 2 1 b 1 2 255",
        ),
    ];
    for (text, given, left) in table {
        assert!(rt; leaves(rt.alloc(), text, given, left, 1)?, "{text}");
        assert!(rt; leaves(rt.alloc(), text, given, left, 1_000_000)?, "{text}");
    }
    Ok(())
}
