//! What is printed for a job.
use job_texts::lab_text::lab_text;
use std::test::Fail;

#[test]
fn a_job_that_is_made_is_printed_with_its_board(rt: HostRuntime) -> Result<(), Fail> {
    let job =
        b"map\tbbm\nboard\t2\t2\t0\nrow\t0100\nrow\t0000\nstep\t1\nopen\nflip\t0\t0\t1\nclose\nstep\t-1\n";
    let text = lab_text(job, rt.alloc())?;
    assert!(rt;
        text.as_slice() == b"done\t5\t0\t3\t0\nboard\t2\t2\t0\nrow\t0001\nrow\t0100\n".as_slice()
    );
    Ok(())
}

#[test]
fn a_negative_clock_has_a_minus(rt: HostRuntime) -> Result<(), Fail> {
    let job = b"map\ttron\nboard\t2\t2\t1\nrow\t0000\nrow\t0000\nstep\t-10000\nstep\t2\nundo\n";
    let text = lab_text(job, rt.alloc())?;
    assert!(rt;
        text.as_slice()
            == b"done\t3\t-10000\t1\t1\nboard\t2\t2\t1\nrow\t0000\nrow\t0000\n".as_slice()
    );
    Ok(())
}

#[test]
fn a_fault_is_printed_alone(rt: HostRuntime) -> Result<(), Fail> {
    let text = lab_text(b"map\tlife\n", rt.alloc())?;
    assert!(rt; text.as_slice() == b"fault\t2\t9\t1\t2\n".as_slice());
    Ok(())
}
