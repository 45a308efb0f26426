// The real files and the standard output.
use byte_io::{Files, FilesFault, HostFiles, HostSink, write_all};

// Files, and what comes of the read of five bytes.
const READS: [(&str, &str); 4] = [
    ("/no/such/file", "missing"),
    ("/dev/null/below", "missing"),
    ("/", "failed"),
    ("/dev/zero", "five zeroes"),
];

fn bytes_told(bytes: &[u8]) -> &'static str {
    if bytes == [0, 0, 0, 0, 0].as_slice() {
        "five zeroes"
    } else {
        "other bytes"
    }
}

fn read_told<F: Files>(files: &mut F, name: &str) -> &'static str {
    match files.read(name, 5) {
        Ok(None) => "missing",
        Ok(Some(bytes)) => bytes_told(&bytes),
        Err(FilesFault::Failed) => "failed",
        Err(FilesFault::NoMemory) => "memory",
    }
}

// The first file of which something else comes.
fn first_other<'a, F: Files>(files: &mut F, rows: &[(&'a str, &str)]) -> Option<&'a str> {
    for row in rows {
        if read_told(files, row.0) != row.1 {
            return Some(row.0);
        }
    }
    None
}

#[test]
fn real_files_are_read(rt: HostRuntime) {
    let mut files = HostFiles::new(&rt);
    assert_eq!(rt; first_other(&mut files, &READS), None);
}

#[test]
fn standard_output_is_written(rt: HostRuntime) {
    let mut out = HostSink::new(&rt);
    let line = "a line on the standard output\n".as_bytes();
    assert_eq!(rt; write_all(&mut out, line), Ok(()));
}
