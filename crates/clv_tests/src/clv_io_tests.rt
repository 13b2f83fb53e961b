//! Each call once where it succeeds, and each fault once. The traits' calls are made through the
//! traits, at each implementation.

use clv_io::{
    Files, HostFiles, HostSink, LoadFault, Sink, SinkFault, SteadyFiles, SteadySink, StoreFault,
};
use clv_place::{NoMemory, Text};
use std::alloc::Global;
use std::process::Abort;
use std::test::Fail;

fn load<F: Files>(files: &mut F, alloc: Global, name: &str, max: usize) -> Result<Text, LoadFault> {
    files.load(alloc, name, max)
}

fn store<F: Files>(files: &mut F, name: &str, bytes: &[u8]) -> Result<(), StoreFault> {
    files.store(name, bytes)
}

fn put<S: Sink>(sink: &mut S, bytes: &[u8]) -> Result<(), SinkFault> {
    sink.put(bytes)
}

/// What loads of a name answer, by the most bytes that they allow: how many bytes, or why none.
fn expect_loads<F: Files>(
    rt: &impl Abort,
    files: &mut F,
    alloc: Global,
    expected: &[(&str, usize, Result<usize, LoadFault>)],
) {
    for (name, max, answer) in expected {
        let length = load(files, alloc, name, *max).map(|text| text.len());
        assert_eq!(rt; length, *answer, "at {name} {max}");
    }
}

/// What stores under a name answer.
fn expect_stores<F: Files>(
    rt: &impl Abort,
    files: &mut F,
    expected: &[(&str, &[u8], Result<(), StoreFault>)],
) {
    for (name, bytes, answer) in expected {
        assert_eq!(rt; store(files, name, bytes), *answer, "at {name}");
    }
}

/// What is held under a name.
fn expect_contents(rt: &impl Abort, files: &SteadyFiles, expected: &[(&str, Option<&[u8]>)]) {
    for (name, bytes) in expected {
        assert_eq!(rt; files.contents(name), *bytes, "at {name}");
    }
}

/// A name with more room than it fills, one with room alone, and one that is full.
fn some_files(alloc: Global) -> Result<SteadyFiles, NoMemory> {
    let mut files = SteadyFiles::new(alloc)?;
    files.with("roomy", b"old")?;
    files.room("roomy", 5)?;
    files.room("roomy", 4)?;
    files.room("empty", 2)?;
    files.with("full", b"full")?;
    Ok(files)
}

#[test]
fn steady_files_load_what_they_hold(rt: HostRuntime) -> Result<(), Fail> {
    let alloc = rt.alloc();
    let mut files = some_files(alloc)?;
    let expected = [
        ("roomy", 3, Ok(3)),
        ("full", 4, Ok(4)),
        ("full", 3, Err(LoadFault::TooLarge { seen: 4 })),
        ("empty", 4, Err(LoadFault::Failed)),
        ("absent", 4, Err(LoadFault::Failed)),
    ];
    expect_loads(&rt, &mut files, alloc, &expected);
    assert_eq!(rt; files.faults(), 2);
    let text = load(&mut files, alloc, "full", 9)?;
    assert_eq!(rt; text.as_slice(), b"full".as_slice());
    Ok(())
}

#[test]
fn steady_files_store_into_room(rt: HostRuntime) -> Result<(), Fail> {
    let mut files = some_files(rt.alloc())?;
    let before = [("roomy", Some(b"old".as_slice())), ("empty", None)];
    expect_contents(&rt, &files, &before);
    let stores = [
        ("roomy", b"sixsix".as_slice(), Err(StoreFault)),
        ("roomy", b"fives".as_slice(), Ok(())),
        ("empty", b"two".as_slice(), Err(StoreFault)),
        ("empty", b"to".as_slice(), Ok(())),
        ("absent", b"".as_slice(), Err(StoreFault)),
    ];
    expect_stores(&rt, &mut files, &stores);
    assert_eq!(rt; files.faults(), 3);
    let after = [
        ("roomy", Some(b"fives".as_slice())),
        ("empty", Some(b"to".as_slice())),
        ("absent", None),
        ("full", Some(b"full".as_slice())),
    ];
    expect_contents(&rt, &files, &after);
    Ok(())
}

#[test]
fn steady_sink_takes_what_has_room(rt: HostRuntime) -> Result<(), Fail> {
    let mut sink = SteadySink::new(rt.alloc(), 4)?;
    assert_eq!(rt; put(&mut sink, b"abc"), Ok(()));
    assert_eq!(rt; put(&mut sink, b"de"), Err(SinkFault));
    assert_eq!(rt; put(&mut sink, b"d"), Ok(()));
    assert_eq!(rt; sink.bytes(), b"abcd".as_slice());
    assert_eq!(rt; sink.faults(), 1);
    Ok(())
}

#[test]
fn host_files_keep_what_is_stored(rt: HostRuntime) -> Result<(), Fail> {
    let alloc = rt.alloc();
    let mut files = HostFiles::new(&rt);
    let bytes: Vec<u8> = (0..10_000usize).map(|i| (i % 251) as u8).collect(alloc)?;
    let stores = [
        ("short", bytes.as_slice(), Ok(())),
        ("short", b"short".as_slice(), Ok(())),
        ("long", bytes.as_slice(), Ok(())),
        ("empty", b"".as_slice(), Ok(())),
        ("absent/file", b"lost".as_slice(), Err(StoreFault)),
    ];
    expect_stores(&rt, &mut files, &stores);
    assert_eq!(rt; files.faults(), 1);
    let loads = [
        ("short", 5, Ok(5)),
        ("long", usize::MAX, Ok(10_000)),
        ("long", 9_999, Err(LoadFault::TooLarge { seen: 10_000 })),
        ("long", 0, Err(LoadFault::TooLarge { seen: 1 })),
        ("empty", 0, Ok(0)),
        ("absent", 9, Err(LoadFault::Failed)),
    ];
    expect_loads(&rt, &mut files, alloc, &loads);
    assert_eq!(rt; files.faults(), 2);
    let text = load(&mut files, alloc, "long", 10_000)?;
    assert_eq!(rt; text.as_slice(), bytes.as_slice());
    Ok(())
}

#[test]
fn host_sink_takes_text(rt: HostRuntime) {
    let mut sink = HostSink::new(&rt);
    assert_eq!(rt; put(&mut sink, b"a line\n"), Ok(()));
    assert_eq!(rt; put(&mut sink, b""), Ok(()));
    assert_eq!(rt; sink.faults(), 0);
}
