//! Sorting, searching and merging.

use crate::driver::leaves;
use std::test::Fail;

const SELECTION: &str = "// Sorts four ints of each item by choosing the least; counts the swaps.
void swap(int *a, int *b) {
    int t = *a;
    *a = *b;
    *b = t;
}

__kernel void sort(__global int *all, __global uint *swaps) {
    int own[4];
    uint base = get_global_id(0) * 4, count = 0;
    for (int i = 0; i < 4; i++)
        own[i] = all[base + i];
    for (int i = 0; i < 3; i++) {
        int least = i;
        for (int j = i + 1; j < 4; j++)
            if (own[j] < own[least])
                least = j;
        if (least == i)
            continue;
        swap(&own[i], own + least);
        count++;
    }
    for (int i = 0; i < 4; i++)
        all[base + i] = own[i];
    swaps[get_global_id(0)] = count;
}
";

const BITONIC: &str = "// A bitonic sort of a group's keys in local memory.
__kernel void sort(__global uint *keys) {
    __local uint own[8];
    uint i = get_local_id(0);
    own[i] = keys[i];
    for (uint size = 2; size <= 8; size <<= 1)
        for (uint apart = size >> 1; apart; apart >>= 1) {
            barrier(CLK_LOCAL_MEM_FENCE);
            uint other = i ^ apart;
            if (other > i) {
                bool up = (i & size) == 0;
                uint a = own[i], b = own[other];
                if ((a > b) == up) {
                    own[i] = b;
                    own[other] = a;
                }
            }
        }
    barrier(CLK_LOCAL_MEM_FENCE);
    keys[i] = own[i];
}
";

const RANKS: &str = "// Each key goes to the place that its rank gives; equal keys keep their order.
__kernel void sort(__global const short *keys, __global short *sorted) {
    int n = get_global_size(0), i = get_global_id(0), rank = 0;
    for (int j = 0; j < n; j++)
        rank += keys[j] < keys[i] || keys[j] == keys[i] && j < i;
    sorted[rank] = keys[i];
}
";

const SEARCH: &str = "// Where a number would first stand in a sorted list.
uint first_of(__constant int *list, uint length, int wanted) {
    __constant int *low = list;
    while (length) {
        uint middle = length / 2;
        if (low[middle] < wanted) {
            low += middle + 1;
            length -= middle + 1;
        } else
            length = middle;
    }
    return low - list;
}

__kernel void search(__constant int *list, uint length, __global const int *wanted,
                     __global uint *found) {
    uint i = get_global_id(0);
    found[i] = first_of(list, length, wanted[i]);
}
";

const MERGE: &str = "// Merges two lists, each of which ends before its bound.
__kernel void merge(__global const int *a, __global const int *b, __global int *out) {
    __global const int *end_a = a + 3, *end_b = b + 4;
    while (a < end_a && b < end_b)
        *out++ = *b < *a ? *b++ : *a++;
    while (a < end_a)
        *out++ = *a++;
    while (b < end_b)
        *out++ = *b++;
}
";

#[test]
fn sorts_by_choosing(rt: HostRuntime) -> Result<(), Fail> {
    let given = "g 2 l 1 w 5 -3 9 0 2 2 -7 1 w 0 0";
    let left = "w -3 0 5 9 -7 1 2 2 w 3 2";
    assert!(rt; leaves(rt.alloc(), SELECTION, given, left, 1)?);
    assert!(rt; leaves(rt.alloc(), SELECTION, given, left, 1_000_000)?);
    Ok(())
}

#[test]
fn sorts_in_local_memory(rt: HostRuntime) -> Result<(), Fail> {
    let given = "g 8 l 8 w 7 3 250 1 0 9 9 4";
    let left = "w 0 1 3 4 7 9 9 250";
    assert!(rt; leaves(rt.alloc(), BITONIC, given, left, 1)?);
    assert!(rt; leaves(rt.alloc(), BITONIC, given, left, 1_000_000)?);
    Ok(())
}

#[test]
fn ranks_searches_and_merges(rt: HostRuntime) -> Result<(), Fail> {
    let table: [(&str, &str, &str); 3] = [
        (
            RANKS,
            "g 5 l 5 h 3 -1 3 7 0 h 0*5",
            "h 3 65535 3 7 0 h 65535 0 3 3 7",
        ),
        (
            SEARCH,
            "g 4 l 2 w 1 4 4 9 12 W 5 w 4 0 13 9 w 0*4",
            "w 1 4 4 9 12 w 4 0 13 9 w 1 0 5 3",
        ),
        (
            MERGE,
            "w 1 5 8 w 2 3 9 10 w 0*7",
            "w 1 5 8 w 2 3 9 10 w 1 2 3 5 8 9 10",
        ),
    ];
    for (text, given, left) in table {
        assert!(rt; leaves(rt.alloc(), text, given, left, 1)?, "{text}");
        assert!(rt; leaves(rt.alloc(), text, given, left, 1_000_000)?, "{text}");
    }
    Ok(())
}
