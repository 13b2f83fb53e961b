//! The table of the instructions, by rows of the specification.

use Last::{Ids, Nothing, OneWord, Pairs, Words};
use Slot::{Id, Str, Word};
use spv_module::forms::{Form, Last, Slot};
use spv_module::table::form;

// Whether the id of a result type and that of a result stand first: neither, the result's alone, or both.
const PLAIN: (bool, bool) = (false, false);

const RESULT: (bool, bool) = (false, true);

const VALUE: (bool, bool) = (true, true);

#[test]
fn forms_are_those_of_the_specification(rt: HostRuntime) {
    for (op, (typed, makes), slots, count, last) in [
        (7, RESULT, [Str, Id, Id, Id, Id, Id], 1, Nothing),
        (12, VALUE, [Id, Word, Id, Id, Id, Id], 2, Ids),
        (15, PLAIN, [Word, Id, Str, Id, Id, Id], 3, Ids),
        (16, PLAIN, [Id, Word, Word, Word, Word, Id], 5, Nothing),
        (17, PLAIN, [Word, Id, Id, Id, Id, Id], 1, Nothing),
        (32, RESULT, [Word, Id, Id, Id, Id, Id], 2, Nothing),
        (43, VALUE, [Word, Id, Id, Id, Id, Id], 1, OneWord),
        (56, PLAIN, [Id, Id, Id, Id, Id, Id], 0, Nothing),
        (62, PLAIN, [Id, Id, Id, Id, Id, Id], 2, Nothing),
        (71, PLAIN, [Id, Word, Id, Id, Id, Id], 2, Words),
        (72, PLAIN, [Id, Word, Word, Id, Id, Id], 3, Words),
        (82, VALUE, [Id, Id, Id, Id, Id, Id], 2, Words),
        (230, VALUE, [Id, Id, Id, Id, Id, Id], 6, Nothing),
        (246, PLAIN, [Id, Id, Word, Id, Id, Id], 3, Nothing),
        (251, PLAIN, [Id, Id, Id, Id, Id, Id], 2, Pairs),
    ] {
        let want = Form {
            typed,
            makes,
            slots,
            count,
            last,
        };
        assert_eq!(rt; form(op), Some(want), "at {op}");
    }
}

/// The opcodes that the compiler knows.
const KNOWN: [u16; 99] = [
    1, 5, 6, 7, 10, 11, 12, 14, 15, 16, 17, 19, 20, 21, 23, 28, 29, 30, 32, 33, 41, 42, 43, 44, 46,
    50, 51, 54, 55, 56, 57, 59, 61, 62, 65, 71, 72, 77, 78, 79, 80, 81, 82, 113, 114, 124, 126,
    128, 130, 132, 134, 135, 137, 138, 166, 167, 168, 169, 170, 171, 172, 173, 174, 175, 176, 177,
    178, 179, 194, 195, 196, 197, 198, 199, 200, 224, 225, 229, 230, 232, 233, 234, 235, 236, 237,
    238, 239, 240, 241, 242, 246, 247, 248, 249, 250, 251, 253, 254, 255,
];

#[test]
fn known_opcodes_alone_have_a_form(rt: HostRuntime) {
    for op in 0..=u16::MAX {
        assert_eq!(rt; form(op).is_some(), KNOWN.contains(&op), "at {op}");
    }
}
