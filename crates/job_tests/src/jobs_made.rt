//! Jobs whose records are all made.
use jobs::done::Done;
use jobs::job::run_job;
use jobs::opening::open_job;
use lattice::start::Start;
use named_maps::named::NamedMap;
use std::test::Fail;

// One step of a two-by-two board, which is empty for `tron` and has its upper left cell present for the others. All but `mixed` are worked out by hand.
#[test]
fn each_name_runs_its_map(rt: HostRuntime) -> Result<(), Fail> {
    let cases: [(&[u8], [u8; 4]); 4] = [
        (
            b"map\tbbm\nboard\t2\t2\t0\nrow\t0100\nrow\t0000\nstep\t1\n",
            [0, 0, 0, 1],
        ),
        (
            b"map\tcritters\nboard\t2\t2\t0\nrow\t0100\nrow\t0000\nstep\t1\n",
            [0, 1, 1, 1],
        ),
        (
            b"map\ttron\nboard\t2\t2\t0\nrow\t0000\nrow\t0000\nstep\t1\n",
            [1, 1, 1, 1],
        ),
        (
            b"map\tmixed\nboard\t2\t2\t0\nrow\t0100\nrow\t0000\nstep\t1\n",
            [2, 0, 0, 0],
        ),
    ];
    for (job, held) in cases {
        let mut cells = [9; 4];
        let done = run_job(job, &mut cells)?;
        assert_eq!(rt; done.start, Start::new(2, 2, 1)?);
        assert_eq!(rt; (done.made, done.counts), (1, (1, 0, 1, 1)));
        assert_eq!(rt; cells, held);
    }
    Ok(())
}

// Four cells in a square have three neighbours each, so the rule gives 1 for each of them; for all others it gives 0.
#[test]
fn life_is_lifted(rt: HostRuntime) -> Result<(), Fail> {
    let job =
        b"map\tlife2\nboard\t4\t4\t0\nrow\t01010000\nrow\t01010000\nrow\t00000000\nrow\t00000000\nstep\t1\n";
    let mut cells = [9; 16];
    let done = run_job(job, &mut cells)?;
    assert_eq!(rt; done.start, Start::new(4, 4, 0)?);
    assert_eq!(rt; cells, [3, 3, 0, 0, 3, 3, 0, 0, 0, 0, 0, 0, 0, 0, 0, 0]);
    Ok(())
}

fn nothing_was_made(done: &Done) -> bool {
    done.made == 0 && done.counts == (0, 0, 0, 1)
}

// A job may end after its board.
#[test]
fn a_script_may_be_empty(rt: HostRuntime) -> Result<(), Fail> {
    let mut cells = [9; 5];
    let done = run_job(
        b"map\tmixed\nboard\t2\t2\t1\nrow\t01ff\nrow\t0203\n",
        &mut cells,
    )?;
    assert_eq!(rt; done.start, Start::new(2, 2, 1)?);
    assert!(rt; nothing_was_made(&done));
    assert_eq!(rt; cells, [1, 255, 2, 3, 9]);
    Ok(())
}

// An edit and a step are undone; the edit before them stands.
#[test]
fn actions_and_undone_ones_are_counted(rt: HostRuntime) -> Result<(), Fail> {
    let job =
        b"map\tbbm\nboard\t2\t2\t0\nrow\t0000\nrow\t0000\nopen\nflip\t0\t0\t1\nflip\t1\t1\t128\nclose\nstep\t-2\nopen\nflip\t1\t0\t255\nclose\nundo\nundo\n";
    let mut cells = [9; 4];
    let done = run_job(job, &mut cells)?;
    assert_eq!(rt; (done.made, done.counts), (10, (1, 2, 0, 0)));
    assert_eq!(rt; cells, [1, 0, 0, 128]);
    Ok(())
}

// The map line, the board's line and two rows have 38 bytes, and the script begins on line 5.
#[test]
fn a_job_is_opened(rt: HostRuntime) -> Result<(), Fail> {
    let mut cells = [9; 5];
    let opening = open_job(
        b"map\tbbm\nboard\t2\t2\t1\nrow\t0102\nrow\t0304\nstep\t1\n",
        &mut cells,
    )?;
    assert_eq!(rt; opening.map, NamedMap::Bbm);
    assert_eq!(rt; opening.start, Start::new(2, 2, 1)?);
    assert_eq!(rt; (opening.script_at, opening.script_line.number()), (38, 5));
    assert_eq!(rt; cells, [1, 2, 3, 4, 9]);
    Ok(())
}
