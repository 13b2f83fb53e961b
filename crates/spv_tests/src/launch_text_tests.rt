//! Texts, and what they read as.

use launch_text::launch::{ArgKind, LaunchStop, Schedule};
use launch_text::read::{MAX_TEXT, read_launch};
use std::alloc::{AllocError, Global};
use std::test::Fail;

// A text, and the rule that it breaks at a line.
type Refused<'a> = (&'a [u8], u8, u32);

const REFUSED: [Refused<'static>; 78] = [
    // L1: a byte that may not stand in a line, in what is skipped too
    (b"kernel \x7f", 1, 1),
    (b"\n# caf\xc3\xa9\n", 1, 2),
    (b"kernel a\r\r\n", 1, 1),
    (b"kernel\ra\n", 1, 1),
    (b"kernel a\nglobal 1\n\x00", 1, 3),
    (b"what \x1f", 1, 1),
    // L2: an unknown first word
    (b"kernels a", 2, 1),
    (b"kernel a\nKernel b\n", 2, 2),
    (b"\n\n\t offset 1\n", 2, 3),
    (b"arg# 0 local 1", 2, 1),
    (b"kerne a\n", 2, 1),
    (b"0", 2, 1),
    // L3: other words than the line has
    (b"kernel", 3, 1),
    (b"kernel a b", 3, 1),
    (b"kernel a # b", 3, 1),
    (b"global\r\n", 3, 1),
    (b"global 1 1 1 1", 3, 1),
    (b"local x x x x", 3, 1),
    (b"arg 0 buffer", 3, 1),
    (b"arg x what f", 3, 1),
    (b"arg 0 Plain 00", 3, 1),
    (b"arg 0 local 1 1", 3, 1),
    (b"schedule robin", 3, 1),
    (b"schedule mixed 1", 3, 1),
    (b"schedule seed 1 2", 3, 1),
    (b"steps", 3, 1),
    (b"#\nsteps 1 1", 3, 2),
    // L4: a number that is not decimal digits, or is too large
    (b"global 1x", 4, 1),
    (b"global 0 x", 4, 1),
    (b"global 1 1 4294967296", 4, 1),
    (b"local 0x1", 4, 1),
    (b"arg x buffer f", 4, 1),
    (b"arg -1 local 1", 4, 1),
    (b"arg 4294967296 plain 00", 4, 1),
    (b"arg 0 local +1", 4, 1),
    (b"arg x local 0", 4, 1),
    (b"arg x plain 0", 4, 1),
    (b"schedule robin 4294967296", 4, 1),
    (b"schedule seed 18446744073709551616", 4, 1),
    (b"schedule seed 99999999999999999999999999", 4, 1),
    (b"steps 1000000000001", 4, 1),
    (b"kernel a\nsteps 1.0", 4, 2),
    // L5: hex that is not an even number of hexadecimal digits
    (b"arg 0 plain 0", 5, 1),
    (b"arg 0 plain 0g", 5, 1),
    (b"arg 0 plain g0", 5, 1),
    (b"arg 0 plain 0x00", 5, 1),
    (b"#\n\narg 00 plain aBc", 5, 3),
    (b"arg 0 local 1\narg 0 plain 1", 5, 2),
    // L6: a zero
    (b"global 0", 6, 1),
    (b"global 1 00 1", 6, 1),
    (b"local 1 1 0", 6, 1),
    (b"arg 0 local 0", 6, 1),
    (b"schedule robin 0", 6, 1),
    (b"steps 000", 6, 1),
    (b"local 1\nlocal 0", 6, 2),
    // L7: given already
    (b"kernel a\nkernel a", 7, 2),
    (b"global 1\nlocal 1\nglobal 2", 7, 3),
    (b"local 1\nlocal 1 1", 7, 2),
    (b"arg 0 buffer f\narg 00 buffer g", 7, 2),
    (b"arg 7 local 1\n#\narg 7 plain 00", 7, 3),
    (b"schedule robin 1\nschedule seed 0", 7, 2),
    (b"steps 1\nsteps 1", 7, 2),
    (b"kernel a\nkernel b\nsteps 0", 7, 2),
    // L8: kernel, global or local is missing
    (b"", 8, 1),
    (b"\n", 8, 2),
    (b"kernel a\nglobal 1", 8, 3),
    (b"kernel a\nlocal 1\n", 8, 3),
    (b"global 1 1\nlocal 1\n\n# end\n", 8, 5),
    (b"arg 0 local 1\r", 8, 2),
    // L9: global and local have different counts
    (b"kernel a\nglobal 1\nlocal 1 1", 9, 3),
    (b"local 1\n\nkernel a\nglobal 1 1 1\n", 9, 1),
    (
        b"# first\nglobal 2 2\nlocal 1 1 1\nkernel a\nsteps 5\n",
        9,
        3,
    ),
    // the first line that breaks a rule, and at one line the least rule
    (b"steps 0\nwhat", 6, 1),
    (b"what\nsteps 0", 2, 1),
    (b"kernel a\nkernel a\nkernel\x80", 7, 2),
    (b"arg 0 local 1\narg 0 local x", 4, 2),
    (b"kernel \x80 b", 1, 1),
    (b"global 1\nlocal 1 1\nkernel", 3, 3),
];

#[test]
fn refuses_at_the_first_line(rt: HostRuntime) {
    for (text, number, line) in REFUSED {
        let stop = read_launch(rt.alloc(), text).err();
        assert_eq!(rt; stop, Some(LaunchStop::Fault { number, line }), "{text:?}");
    }
}

// What an argument is given, in words.
fn words_of(alloc: Global, kind: &ArgKind) -> Result<String, AllocError> {
    match kind {
        ArgKind::Buffer { file } => format!(in alloc; "buffer {file}"),
        ArgKind::Local { bytes } => format!(in alloc; "local {bytes}"),
        ArgKind::Plain { bytes } => format!(in alloc; "plain {:?}", bytes.as_slice()),
    }
}

#[test]
fn reads_a_whole_launch(rt: HostRuntime) -> Result<(), Fail> {
    let text: &[u8] = b"# all there is\r\nkernel add\r\n\tglobal 64 032\t8 \r\nlocal 8 4 2\n\n\
        arg 3 buffer out.bin\narg 0 buffer a.bin\narg 4294967295 local 4294967295\n\
        arg 2 plain 00fFA9\narg 1 buffer out.bin\n  #\narg 007 buffer b#\n\
        schedule seed 18446744073709551615\nsteps 1000000000000\r";
    let launch = read_launch(rt.alloc(), text).ok().ok_or("refused")?;
    assert_eq!(rt; launch.kernel.as_slice(), b"add".as_slice());
    assert_eq!(rt; launch.dims, 3);
    assert_eq!(rt; launch.global, [64, 32, 8]);
    assert_eq!(rt; launch.local, [8, 4, 2]);
    let names: [&[u8]; 3] = [b"out.bin", b"a.bin", b"b#"];
    assert_eq!(rt; launch.files.len(), names.len());
    for (file, name) in launch.files.as_slice().iter().zip(names) {
        assert_eq!(rt; file.as_slice(), name);
    }
    let args = [
        (3, "buffer 0"),
        (0, "buffer 1"),
        (u32::MAX, "local 4294967295"),
        (2, "plain [0, 255, 169]"),
        (1, "buffer 0"),
        (7, "buffer 2"),
    ];
    assert_eq!(rt; launch.args.len(), args.len());
    for (arg, (ordinal, words)) in launch.args.as_slice().iter().zip(args) {
        assert_eq!(rt; arg.ordinal, ordinal);
        assert_eq!(rt; words_of(rt.alloc(), &arg.kind)?.as_str(), words);
    }
    assert_eq!(rt; launch.schedule, Schedule::Mixed(u64::MAX));
    assert_eq!(rt; launch.steps, 1_000_000_000_000);
    Ok(())
}

#[test]
fn fills_in_what_is_not_given(rt: HostRuntime) -> Result<(), Fail> {
    let table: [(&[u8], u8, [u32; 3], Schedule, u64); 3] = [
        (
            b"kernel k\nglobal 5\nlocal 1",
            1,
            [5, 1, 1],
            Schedule::Robin(1),
            100_000_000,
        ),
        (
            b"local 1 1\nschedule robin 007\nglobal 5 6\nkernel k\n",
            2,
            [5, 6, 1],
            Schedule::Robin(7),
            100_000_000,
        ),
        (
            b"steps 1\r\nlocal 1 1 1\r\nschedule seed 0\r\nkernel k\r\nglobal 5 6 7",
            3,
            [5, 6, 7],
            Schedule::Mixed(0),
            1,
        ),
    ];
    for (text, dims, global, schedule, steps) in table {
        let launch = read_launch(rt.alloc(), text).ok().ok_or("refused")?;
        assert_eq!(rt; launch.kernel.as_slice(), b"k".as_slice());
        assert_eq!(rt; launch.dims, dims);
        assert_eq!(rt; launch.global, global);
        assert_eq!(rt; launch.local, [1, 1, 1]);
        assert_eq!(rt; launch.schedule, schedule);
        assert_eq!(rt; launch.steps, steps);
        assert!(rt; launch.files.is_empty() && launch.args.is_empty());
    }
    Ok(())
}

// A text of so many bytes in all that ends in a remark.
fn padded(alloc: Global, begin: &[u8], length: usize) -> Result<Vec<u8>, AllocError> {
    let mut text = begin.to_vec(alloc)?;
    text.push(b'#')?;
    for _ in text.len()..length {
        text.push(b'x')?;
    }
    Ok(text)
}

#[test]
fn keeps_to_the_greatest_length(rt: HostRuntime) -> Result<(), Fail> {
    let launch = padded(rt.alloc(), b"kernel k\nglobal 1\nlocal 1\n", MAX_TEXT)?;
    assert!(rt; read_launch(rt.alloc(), &launch).is_ok());
    for (length, number) in [(MAX_TEXT, 2), (MAX_TEXT + 1, 1), (2 * MAX_TEXT, 1)] {
        let text = padded(rt.alloc(), b"what\n", length)?;
        let stop = read_launch(rt.alloc(), &text).err();
        assert_eq!(rt; stop, Some(LaunchStop::Fault { number, line: 1 }));
    }
    Ok(())
}
