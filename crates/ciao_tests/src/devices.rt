// Files and a sink that fail: what was written is a prefix.
use crate::clauses::COUNT;
use crate::runs::words_of;
use byte_io::{MemFiles, MemSink};
use ciao_top::run_tool;
use std::alloc::{AllocError, Global};
use std::test::Fail;
use std::thread::Threads;

const WRITTEN: &str = "answer: n(z)\nend: no more answers\n";

// The read and the write that fail, by their numbers, and how many bytes the sink takes in a write.
type Devices = (u64, u64, usize);

// A run of a query that succeeds, over such devices.
fn run_over<R: Threads + Sync>(
    rt: &R,
    alloc: Global,
    devices: Devices,
) -> Result<(MemSink, u8), AllocError> {
    let mut files = MemFiles::new(alloc);
    let mut out = MemSink::new(alloc, devices.2.max(1));
    if files.add("c.pl", COUNT.as_bytes()).is_err()
        || files.fail_at(devices.0).is_err()
        || out.fail_at(devices.1).is_err()
    {
        return Err(AllocError);
    }
    let words = words_of(alloc, "n(z)", "5")?;
    let status = run_tool(rt, alloc, &words, &mut files, &mut out);
    Ok((out, status))
}

// Whether a run over such devices writes this, with this status.
fn runs_so<R: Threads + Sync>(
    rt: &R,
    alloc: Global,
    devices: Devices,
    written: &[u8],
    status: u8,
) -> Result<bool, AllocError> {
    let (out, ended) = run_over(rt, alloc, devices)?;
    Ok(ended == status && out.bytes() == written)
}

// How the devices fail, what is written, and the status.
type Row = (Devices, &'static str, u8);

// A read that fails, alone and with a write; and writes of whole pieces that fail.
const ROWS: [Row; 8] = [
    ((0, 1, 100), "fault: read c.pl\n", 7),
    ((0, 0, 100), "", 8),
    ((0, 1, 7), "fault: ", 8),
    ((0, 2, 7), "fault: read c.", 8),
    ((0, 3, 7), "fault: read c.pl\n", 7),
    ((1, 0, 100), "", 8),
    ((1, 1, 100), "answer: n(z)\n", 8),
    ((1, 2, 100), WRITTEN, 0),
];

// The place of the first row that goes otherwise.
fn first_other<R: Threads + Sync>(
    rt: &R,
    alloc: Global,
    rows: &[Row],
) -> Result<Option<usize>, AllocError> {
    for (at, row) in rows.iter().enumerate() {
        if !runs_so(rt, alloc, row.0, row.1.as_bytes(), row.2)? {
            return Ok(Some(at));
        }
    }
    Ok(None)
}

#[test]
fn devices_that_fail(rt: HostRuntime) -> Result<(), Fail> {
    assert_eq!(rt; first_other(&rt, rt.alloc(), &ROWS)?, None);
    Ok(())
}

// The first write of one byte whose failure leaves something else than the bytes before.
fn first_other_write<R: Threads + Sync>(
    rt: &R,
    alloc: Global,
    bytes: &[u8],
) -> Result<Option<usize>, AllocError> {
    for count in 0..bytes.len() {
        if !runs_so(rt, alloc, (1, count as u64, 1), &bytes[..count], 8)? {
            return Ok(Some(count));
        }
    }
    Ok(None)
}

#[test]
fn a_sink_of_one_byte_that_fails_at_each_call(rt: HostRuntime) -> Result<(), Fail> {
    assert_eq!(rt;
        first_other_write(&rt, rt.alloc(), WRITTEN.as_bytes())?,
        None
    );
    Ok(())
}
