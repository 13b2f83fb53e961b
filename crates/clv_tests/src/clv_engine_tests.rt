//! The top call over files and a sink in memory.

use clv_engine::clv_top;
use clv_io::{SteadyFiles, SteadySink};
use clv_place::{NoMemory, Text};
use std::alloc::Global;
use std::test::Fail;

const KERNEL: &str = "__kernel void k(__global uint *a){a[get_global_id(0)]=get_global_id(0)+7;}";

const NO_SEMICOLON: &str =
    "__kernel void k(__global uint *a){a[get_global_id(0)]=get_global_id(0)+7}";

fn words_of(alloc: Global, words: &[&str]) -> Result<Vec<String>, NoMemory> {
    let mut all = Vec::new(alloc);
    for word in words {
        all.push(String::from_str(alloc, word)?)?;
    }
    Ok(all)
}

// One call: what it answers, and what it prints.
#[derive(Clone, Copy)]
struct Case<'a> {
    words: &'a [&'a str],
    source: &'a str,
    status: u8,
    printed: &'a str,
}

#[test]
fn stores_a_module(rt: HostRuntime) -> Result<(), Fail> {
    let alloc = rt.alloc();
    let words = words_of(alloc, &["compile", "k.cl", "k.spv"])?;
    let mut files = SteadyFiles::new(alloc)?;
    files.with("k.cl", KERNEL.as_bytes())?;
    files.room("k.spv", 1024)?;
    let mut out = SteadySink::new(alloc, 32)?;
    assert_eq!(rt; clv_top(alloc, &words, &mut files, &mut out), 0);
    let module = files.contents("k.spv").ok_or("no module")?;
    assert_eq!(rt; module.len(), 4 * 227);
    assert_eq!(rt; &module[..4], [0x03, 0x02, 0x23, 0x07].as_slice());
    assert_eq!(rt; out.bytes(), b"module 227 words\n".as_slice());
    assert_eq!(rt; files.faults(), 0);
    Ok(())
}

#[test]
fn answers_by_its_table(rt: HostRuntime) -> Result<(), Fail> {
    let alloc = rt.alloc();
    let cases = [
        Case {
            words: &["compile", "k.cl", "k.spv"],
            source: NO_SEMICOLON,
            status: 1,
            printed: "source 201 1:73\n",
        },
        Case {
            words: &["compile", "k.cl", "k.spv"],
            source: "",
            status: 1,
            printed: "source 201 1:1\n",
        },
        Case {
            words: &["compile", "k.cl", "k.spv"],
            source: "__kernel void k(__global int*a){a[0]=zz;}",
            status: 1,
            printed: "source 301 1:38\n",
        },
        Case {
            words: &["compile", "k.cl", "k.spv"],
            source: "__kernel void k(__global int*a){a[0]=1;}",
            status: 1,
            printed: "source 900 1:1\n",
        },
        Case {
            words: &[],
            source: KERNEL,
            status: 2,
            printed: "words\n",
        },
        Case {
            words: &["compile", "k.cl"],
            source: KERNEL,
            status: 2,
            printed: "words\n",
        },
        Case {
            words: &["compile", "--pod=push", "k.cl"],
            source: KERNEL,
            status: 2,
            printed: "words\n",
        },
        Case {
            words: &["compile", "k.cl", ""],
            source: KERNEL,
            status: 2,
            printed: "words\n",
        },
        Case {
            words: &["run", "k.cl", "--pod=push"],
            source: KERNEL,
            status: 2,
            printed: "words\n",
        },
        Case {
            words: &["walk", "k.cl", "k.spv"],
            source: KERNEL,
            status: 2,
            printed: "words\n",
        },
        Case {
            words: &["compile", "absent.cl", "k.spv"],
            source: KERNEL,
            status: 3,
            printed: "file absent.cl\n",
        },
        Case {
            words: &["compile", "k.cl", "full.spv"],
            source: KERNEL,
            status: 3,
            printed: "file full.spv\n",
        },
    ];
    for case in cases {
        let words = words_of(alloc, case.words)?;
        let mut files = SteadyFiles::new(alloc)?;
        files.with("k.cl", case.source.as_bytes())?;
        files.room("k.spv", 1024)?;
        files.room("full.spv", 907)?;
        let mut out = SteadySink::new(alloc, 32)?;
        let status = clv_top(alloc, &words, &mut files, &mut out);
        assert_eq!(rt; status, case.status, "{}", case.printed);
        assert_eq!(rt; out.bytes(), case.printed.as_bytes());
        assert_eq!(rt; files.faults(), u64::from(status == 3));
        assert!(rt; files.contents("k.spv").is_none());
    }
    Ok(())
}

#[test]
fn refuses_a_text_over_its_limit(rt: HostRuntime) -> Result<(), Fail> {
    let alloc = rt.alloc();
    let words = words_of(alloc, &["compile", "k.cl", "k.spv"])?;
    let mut files = SteadyFiles::new(alloc)?;
    let source = vec![in alloc; b' '; 1_048_577]?;
    files.with("k.cl", &source)?;
    let mut out = SteadySink::new(alloc, 32)?;
    assert_eq!(rt; clv_top(alloc, &words, &mut files, &mut out), 1);
    assert_eq!(rt; out.bytes(), b"source 105 1:1\n".as_slice());
    Ok(())
}

#[test]
fn answers_nine_where_it_cannot_print(rt: HostRuntime) -> Result<(), Fail> {
    let alloc = rt.alloc();
    let words = words_of(alloc, &["compile", "k.cl", "k.spv"])?;
    let mut files = SteadyFiles::new(alloc)?;
    files.with("k.cl", KERNEL.as_bytes())?;
    files.room("k.spv", 1024)?;
    let mut out = SteadySink::new(alloc, 16)?;
    assert_eq!(rt; clv_top(alloc, &words, &mut files, &mut out), 9);
    assert_eq!(rt; out.faults(), 1);
    let module = files.contents("k.spv").ok_or("no module")?;
    assert_eq!(rt; module.len(), 908);
    Ok(())
}

const LAUNCH: &str = "kernel k\nglobal 4\nlocal 2\narg 0 buffer a\n";

const ZEROS: &[u8] = &[0; 16];

const SUMS: &[u8] = b"\x07\0\0\0\x08\0\0\0\x09\0\0\0\x0a\0\0\0";

// One run: the source, the launch and the buffer `a`; what it answers, what it prints, and what `a` holds.
#[derive(Clone, Copy)]
struct Run<'a> {
    source: &'a str,
    launch: &'a str,
    buffer: &'a [u8],
    status: u8,
    printed: &'a str,
    left: &'a [u8],
}

// The run of the kernel on a launch with four zeros, of which none is changed.
fn refused<'a>(launch: &'a str, status: u8, printed: &'a str) -> Run<'a> {
    Run {
        source: KERNEL,
        launch,
        buffer: ZEROS,
        status,
        printed,
        left: ZEROS,
    }
}

// What a run leaves.
#[derive(Drop)]
struct Left {
    status: u8,
    printed: Text,
    buffer: Text,
    faults: u64,
}

fn run_case(alloc: Global, case: &Run) -> Result<Left, NoMemory> {
    let words = words_of(alloc, &["run", "k.cl", "k.launch"])?;
    let mut files = SteadyFiles::new(alloc)?;
    files.with("k.cl", case.source.as_bytes())?;
    files.with("k.launch", case.launch.as_bytes())?;
    files.with("a", case.buffer)?;
    let mut out = SteadySink::new(alloc, 64)?;
    let status = clv_top(alloc, &words, &mut files, &mut out);
    let buffer = match files.contents("a") {
        Some(bytes) => Text::from_bytes(alloc, bytes)?,
        None => Text::new(alloc),
    };
    Ok(Left {
        status,
        printed: Text::from_bytes(alloc, out.bytes())?,
        buffer,
        faults: files.faults(),
    })
}

#[test]
fn runs_kernels(rt: HostRuntime) -> Result<(), Fail> {
    let done = Run {
        source: KERNEL,
        launch: LAUNCH,
        buffer: ZEROS,
        status: 0,
        printed: "done 52\n",
        left: SUMS,
    };
    let cases = [
        done,
        Run {
            launch: "kernel k\nglobal 4\nlocal 2\narg 0 buffer a\nschedule robin 3\n",
            ..done
        },
        Run {
            launch: "kernel k\nglobal 4\nlocal 4\narg 0 buffer a\nschedule robin 1000000\nsteps 52\n",
            ..done
        },
        // two rows of four items, which write the same
        Run {
            launch: "kernel k\nglobal 4 2\nlocal 2 2\narg 0 buffer a\n",
            printed: "done 104\n",
            ..done
        },
        Run {
            source: "__kernel void f(__global uint*b){b[get_global_id(0)]=1+2147483647+2147483647;}",
            launch: "kernel f\nglobal 2\nlocal 1\narg 0 buffer a\n",
            buffer: &ZEROS[..8],
            printed: "done 20\n",
            left: b"\xff\xff\xff\xff\xff\xff\xff\xff",
            ..done
        },
    ];
    for case in &cases {
        let left = run_case(rt.alloc(), case)?;
        assert_eq!(rt;
            left.printed.as_slice(),
            case.printed.as_bytes(),
            "{}",
            case.launch
        );
        assert_eq!(rt; left.status, case.status, "{}", case.launch);
        assert_eq!(rt; left.buffer.as_slice(), case.left, "{}", case.launch);
        assert_eq!(rt; left.faults, 0);
    }
    Ok(())
}

#[test]
fn stops_runs(rt: HostRuntime) -> Result<(), Fail> {
    let short = &ZEROS[..12];
    let cases = [
        Run {
            source: KERNEL,
            launch: LAUNCH,
            buffer: short,
            status: 7,
            printed: "trap range function 2 word 185 item 3\n",
            left: short,
        },
        refused(
            "kernel k\nglobal 4\nlocal 2\narg 0 buffer a\nsteps 5\n",
            8,
            "spent 5\n",
        ),
        refused(
            "kernel k\nglobal 4\nlocal 2\narg 0 buffer a\nsteps 51\n",
            8,
            "spent 51\n",
        ),
    ];
    for case in &cases {
        let left = run_case(rt.alloc(), case)?;
        assert_eq!(rt;
            left.printed.as_slice(),
            case.printed.as_bytes(),
            "{}",
            case.launch
        );
        assert_eq!(rt; left.status, case.status, "{}", case.launch);
        assert_eq!(rt; left.buffer.as_slice(), case.left, "{}", case.launch);
        assert_eq!(rt; left.faults, 0);
    }
    Ok(())
}

#[test]
fn refuses_launches(rt: HostRuntime) -> Result<(), Fail> {
    let cases = [
        refused(
            "kernel k\nglobal 0\nlocal 2\narg 0 buffer a\n",
            6,
            "launch L6 line 2\n",
        ),
        refused(
            "kernel k\nglobal 4\narg 0 buffer a\n",
            6,
            "launch L8 line 4\n",
        ),
        refused(
            "kernel k\nglobal 4\nlocal 3\narg 0 buffer a\n",
            6,
            "launch L18\n",
        ),
        refused("kernel k\nglobal 4\nlocal 2\n", 6, "launch L11 arg 0\n"),
        refused(
            "kernel k\nglobal 4\nlocal 2\narg 0 buffer a\narg 2 buffer a\n",
            6,
            "launch L11 arg 2\n",
        ),
        refused(
            "kernel k\nglobal 4\nlocal 2\narg 0 buffer a\nschedule seed 3\n",
            6,
            "launch L30\n",
        ),
        refused(
            "kernel z\nglobal 4\nlocal 3\narg 0 buffer a\n",
            6,
            "launch L10\n",
        ),
        refused(
            "kernel k\nglobal 4\nlocal 2\narg 0 local 16\n",
            6,
            "launch L12 arg 0\n",
        ),
        refused(
            "kernel k\nglobal 2048\nlocal 2048\narg 0 buffer a\n",
            6,
            "launch L19\n",
        ),
        Run {
            buffer: &ZEROS[..10],
            left: &ZEROS[..10],
            ..refused(LAUNCH, 6, "launch L14 arg 0\n")
        },
        Run {
            source: NO_SEMICOLON,
            ..refused("kernel k\nglobal 0\n", 1, "source 201 1:73\n")
        },
    ];
    for case in &cases {
        let left = run_case(rt.alloc(), case)?;
        assert_eq!(rt;
            left.printed.as_slice(),
            case.printed.as_bytes(),
            "{}",
            case.launch
        );
        assert_eq!(rt; left.status, case.status, "{}", case.launch);
        assert_eq!(rt; left.buffer.as_slice(), case.left, "{}", case.launch);
        assert_eq!(rt; left.faults, 0);
    }
    Ok(())
}

#[test]
fn names_the_file_that_fails(rt: HostRuntime) -> Result<(), Fail> {
    let alloc = rt.alloc();
    // the files that are there, and the one that is named
    let cases: [(&[&str], &str); 4] = [
        (&[], "file k.cl\n"),
        (&["k.cl"], "file k.launch\n"),
        (&["k.launch"], "file k.cl\n"),
        (&["k.cl", "k.launch"], "file a\n"),
    ];
    for (there, printed) in cases {
        let words = words_of(alloc, &["run", "k.cl", "k.launch"])?;
        let mut files = SteadyFiles::new(alloc)?;
        for name in there {
            let text = if *name == "k.cl" {
                NO_SEMICOLON
            } else {
                LAUNCH
            };
            let text = if there.len() == 2 && *name == "k.cl" {
                KERNEL
            } else {
                text
            };
            files.with(name, text.as_bytes())?;
        }
        let mut out = SteadySink::new(alloc, 64)?;
        assert_eq!(rt; clv_top(alloc, &words, &mut files, &mut out), 3);
        assert_eq!(rt; out.bytes(), printed.as_bytes());
        assert_eq!(rt; files.faults(), 1);
    }
    Ok(())
}
