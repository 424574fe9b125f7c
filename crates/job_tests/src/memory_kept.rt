//! What the cells memory holds after a job that is refused.
use jobs::job::run_job;

// The memory after the job; `None` if all its records are made.
fn memory_after(job: &[u8]) -> Option<[u8; 6]> {
    let mut memory = [7; 6];
    run_job(job, &mut memory).err()?;
    Some(memory)
}

#[test]
fn a_job_that_its_text_refuses_writes_nothing(rt: HostRuntime) {
    let cases: [&[u8]; 5] = [
        b"map\tlife\nboard\t2\t2\t0\nrow\t0102\nrow\t0304\n",
        b"map\tbbm\nboard\t2\t2\t0\nrow\t0102\nrow\t03\n",
        b"map\tbbm\nboard\t2\t2\t0\nrow\t0102\nrow\t0304\nstep\t1\nnonsense\n",
        b"map\tbbm\nboard\t2\t2\t0\nrow\t0102\nrow\t0304\nopen\nflip\t0\t0\t1\n",
        b"map\tbbm\nboard\t2\t4\t0\nrow\t0102\nrow\t0304\nrow\t0102\nrow\t0304\n",
    ];
    for job in cases {
        assert_eq!(rt; memory_after(job), Some([7; 6]));
    }
}

// The step stays; the flip of the session that the refusal interrupts is taken back.
#[test]
fn a_job_that_is_refused_at_a_record_keeps_the_records_before(rt: HostRuntime) {
    let at_rest = b"map\tbbm\nboard\t2\t2\t0\nrow\t0100\nrow\t0000\nstep\t1\nundo\nundo\n";
    assert_eq!(rt; memory_after(at_rest), Some([1, 0, 0, 0, 7, 7]));
    let in_session =
        b"map\tbbm\nboard\t2\t2\t0\nrow\t0100\nrow\t0000\nstep\t1\nopen\nflip\t1\t0\t2\nflip\t0\t2\t1\nclose\n";
    assert_eq!(rt; memory_after(in_session), Some([0, 0, 0, 1, 7, 7]));
}
