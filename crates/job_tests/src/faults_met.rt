//! Jobs that are refused: one for each kind of fault, and for each kind of line that can have it.
use faults::report::Report;
use jobs::job::run_job;
use std::alloc::{AllocError, Global};
use std::test::Fail;

// Layer, number, line and field of the job's fault.
fn fault(job: &[u8], room: usize) -> Option<(u8, u8, usize, usize)> {
    let mut memory = [5; 8];
    let report = Report::from(run_job(job, memory.get_mut(..room)?).err()?);
    Some((report.layer, report.number, report.line, report.field))
}

#[test]
fn faults_of_the_whole_text_and_of_the_map_line(rt: HostRuntime) {
    let cases: [(&[u8], (u8, u8, usize, usize)); 14] = [
        (b"", (2, 32, 1, 0)),
        (b"map\tbbm", (2, 21, 1, 0)),
        (b"mop\tbbm\nboard\t2\t2\t0", (2, 21, 2, 0)),
        (b"\n", (2, 23, 1, 1)),
        (b"Map\tbbm\n", (2, 23, 1, 1)),
        (b"board\t2\t2\t0\nrow\t0000\nrow\t0000\n", (2, 23, 1, 1)),
        (b"map\n", (2, 24, 1, 0)),
        (b"map\tbbm\t\n", (2, 24, 1, 0)),
        (b"map\t\n", (2, 9, 1, 2)),
        (b"map\tlife\n", (2, 9, 1, 2)),
        (b"map\tbbm \n", (2, 9, 1, 2)),
        (b"map\tBBM\nboard\t3\t2\t0\n", (2, 9, 1, 2)),
        (b"map\texchange\nstep\t1\n", (2, 9, 1, 2)),
        (b"map\tmixed\n", (2, 32, 2, 0)),
    ];
    for (job, numbers) in cases {
        assert_eq!(rt; fault(job, 8), Some(numbers));
    }
}

#[test]
fn faults_of_the_board(rt: HostRuntime) {
    let cases: [(&[u8], (u8, u8, usize, usize)); 14] = [
        (b"map\tbbm\nrow\t0000\n", (2, 23, 2, 1)),
        (b"map\tbbm\nboard\t2\t2\n", (2, 24, 2, 0)),
        (b"map\tbbm\nboard\t2\t02\t0\n", (1, 22, 2, 3)),
        (b"map\tbbm\nboard\t3\t2\t0\n", (2, 1, 2, 0)),
        (b"map\tbbm\nboard\t256\t66\t0\n", (2, 2, 2, 0)),
        (b"map\tbbm\nboard\t2\t2\t2\n", (2, 3, 2, 0)),
        (b"map\tbbm\nboard\t2\t2\t0\n", (2, 32, 3, 0)),
        (b"map\tbbm\nboard\t2\t2\t0\nrow\t0000\n", (2, 32, 4, 0)),
        (
            b"map\tbbm\nboard\t2\t2\t0\nrow\t0000\nstep\t1\n",
            (2, 23, 4, 1),
        ),
        (b"map\tbbm\nboard\t2\t2\t0\nrow\t0000\nrow\n", (2, 24, 4, 0)),
        (b"map\tbbm\nboard\t2\t2\t0\nrow\t000\n", (1, 31, 3, 2)),
        (
            b"map\tbbm\nboard\t2\t2\t0\nrow\t0000\nrow\t00A0\n",
            (1, 31, 4, 2),
        ),
        (
            b"map\tbbm\nboard\t2\t4\t0\nrow\t0000\nrow\t0000\nrow\t0000\n",
            (2, 32, 6, 0),
        ),
        (b"map\tlife2\nboard\t256\t64\t0\n", (2, 32, 3, 0)),
    ];
    for (job, numbers) in cases {
        assert_eq!(rt; fault(job, 8), Some(numbers));
    }
}

// The size of the memory is checked after the board and before the script.
#[test]
fn a_memory_that_is_too_short(rt: HostRuntime) {
    let cases: [(&[u8], usize, (u8, u8, usize, usize)); 4] = [
        (
            b"map\tbbm\nboard\t2\t2\t0\nrow\t0000\nrow\t0000\n",
            3,
            (2, 30, 0, 0),
        ),
        (
            b"map\tbbm\nboard\t2\t2\t0\nrow\t0000\nrow\t0000\nnonsense\n",
            3,
            (2, 30, 0, 0),
        ),
        (b"map\tbbm\nboard\t2\t2\t0\nrow\t0000\n", 3, (2, 32, 4, 0)),
        (
            b"map\tbbm\nboard\t2\t2\t0\nrow\t0000\nrow\t0000\nnonsense\n",
            4,
            (2, 23, 5, 1),
        ),
    ];
    for (job, room, numbers) in cases {
        assert_eq!(rt; fault(job, room), Some(numbers));
    }
}

// After the map line and three lines of a board, the script begins on line 5.
#[test]
fn faults_of_the_script(rt: HostRuntime) {
    let cases: [(&[u8], (u8, u8, usize, usize)); 7] = [
        (
            b"map\tbbm\nboard\t2\t2\t0\nrow\t0000\nrow\t0000\nrow\t0000\n",
            (2, 23, 5, 1),
        ),
        (
            b"map\tbbm\nboard\t2\t2\t0\nrow\t0000\nrow\t0000\nstep\n",
            (2, 24, 5, 0),
        ),
        (
            b"map\tbbm\nboard\t2\t2\t0\nrow\t0000\nrow\t0000\nopen\nstep\t-0\n",
            (2, 25, 6, 0),
        ),
        (
            b"map\tbbm\nboard\t2\t2\t0\nrow\t0000\nrow\t0000\nstep\t-0\n",
            (1, 22, 5, 2),
        ),
        (
            b"map\tbbm\nboard\t2\t2\t0\nrow\t0000\nrow\t0000\nopen\nflip\t0\t0\tx\n",
            (1, 22, 6, 4),
        ),
        (
            b"map\tbbm\nboard\t2\t2\t0\nrow\t0000\nrow\t0000\nopen\n",
            (2, 26, 6, 0),
        ),
        (
            b"map\tbbm\nboard\t2\t2\t0\nrow\t0000\nrow\t0000\nstep\t0\nopen\n",
            (2, 26, 7, 0),
        ),
    ];
    for (job, numbers) in cases {
        assert_eq!(rt; fault(job, 8), Some(numbers));
    }
}

#[test]
fn faults_of_its_run(rt: HostRuntime) {
    let cases: [(&[u8], (u8, u8, usize, usize)); 6] = [
        (
            b"map\tbbm\nboard\t2\t2\t0\nrow\t0000\nrow\t0000\nstep\t0\n",
            (3, 11, 5, 0),
        ),
        (
            b"map\tbbm\nboard\t2\t2\t0\nrow\t0000\nrow\t0000\nstep\t1\nstep\t10001\n",
            (3, 11, 6, 0),
        ),
        (
            b"map\tbbm\nboard\t2\t2\t0\nrow\t0000\nrow\t0000\nundo\n",
            (3, 12, 5, 0),
        ),
        (
            b"map\tbbm\nboard\t2\t2\t0\nrow\t0000\nrow\t0000\nstep\t1\nredo\n",
            (3, 13, 6, 0),
        ),
        (
            b"map\tbbm\nboard\t2\t2\t0\nrow\t0000\nrow\t0000\nopen\nflip\t2\t0\t1\nclose\n",
            (3, 15, 6, 0),
        ),
        (
            b"map\tbbm\nboard\t2\t2\t0\nrow\t0000\nrow\t0000\nopen\nflip\t0\t0\t256\nclose\n",
            (3, 16, 6, 0),
        ),
    ];
    for (job, numbers) in cases {
        assert_eq!(rt; fault(job, 8), Some(numbers));
    }
}

// One byte too many is reported before everything else.
#[test]
fn a_job_of_one_byte_too_many(rt: HostRuntime) {
    assert_eq!(rt; fault(&[b'\n'; 65_536], 8), Some((2, 23, 1, 1)));
    assert_eq!(rt; fault(&[b'\n'; 65_537], 8), Some((2, 20, 0, 0)));
}

fn steps(count: usize, heap: Global) -> Result<Vec<u8>, AllocError> {
    let mut job = Vec::new(heap);
    job.extend_from_slice(b"map\tbbm\nboard\t2\t2\t0\nrow\t0000\nrow\t0000\n")?;
    for _ in 0..count {
        job.extend_from_slice(b"step\t1\n")?;
    }
    Ok(job)
}

#[test]
fn the_257th_entry(rt: HostRuntime) -> Result<(), Fail> {
    assert_eq!(rt; fault(&steps(256, rt.alloc())?, 8), None);
    assert_eq!(rt; fault(&steps(257, rt.alloc())?, 8), Some((3, 17, 261, 0)));
    Ok(())
}
