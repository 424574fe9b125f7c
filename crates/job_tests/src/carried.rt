//! What an output holds after a job is carried, even if the input, the output or memory fails partway.
use crate::streams::{Input, Output};
use job_texts::carry::{CarryError, carry};
use linked_list_allocator::LocalHeap;
use std::alloc::{AllocError, Global};
use std::io::ErrorKind;
use std::test::Fail;

const JOB: &[u8] = b"map\tbbm\nboard\t2\t2\t0\nrow\t0100\nrow\t0000\nstep\t1\n";

const PRINTED: &[u8] = b"done\t1\t1\t1\t0\nboard\t2\t2\t1\nrow\t0000\nrow\t0001\n";

// What the output holds beforehand.
const BEFORE: &[u8] = b"before\n";

fn whole(job: &[u8]) -> Input<'_> {
    Input {
        left: job,
        at_once: job.len(),
        failure: None,
        interrupted: false,
    }
}

// An output with room for this many more bytes than it holds.
fn output(room: usize, heap: Global) -> Result<Output, AllocError> {
    Ok(Output {
        held: Vec::from_slice(heap, BEFORE)?,
        at_once: 1_000,
        room: BEFORE.len().saturating_add(room),
        failure: None,
        interrupted: false,
    })
}

// An error of `carry`, with the kind that the input or the output gave.
#[derive(Clone, Copy, PartialEq, Eq, Debug)]
enum Failure {
    Reading(ErrorKind),
    Memory,
    Writing(ErrorKind),
}

fn failure_of(carried: Result<(), CarryError>) -> Option<Failure> {
    Some(match carried.err()? {
        CarryError::Read(e) => Failure::Reading(e.kind()),
        CarryError::OutOfMemory => Failure::Memory,
        CarryError::Write(e) => Failure::Writing(e.kind()),
    })
}

// Whether the output holds what it held before, and then this.
fn holds(output: &Output, text: &[u8]) -> bool {
    output.held.strip_prefix(BEFORE) == Some(text)
}

#[test]
fn a_job_is_carried_in_small_pieces(rt: HostRuntime) -> Result<(), Fail> {
    for at_once in [1, 2, 3, 7, 100] {
        let input = Input {
            at_once,
            ..whole(JOB)
        };
        let mut output = output(100, rt.alloc())?;
        output.at_once = at_once;
        assert_eq!(rt; failure_of(carry(input, &mut output, rt.alloc())), None);
        assert!(rt; holds(&output, PRINTED), "{at_once} bytes at once");
    }
    Ok(())
}

#[test]
fn nothing_is_written_if_the_input_fails(rt: HostRuntime) -> Result<(), Fail> {
    for at in 0..=JOB.len() {
        let input = Input {
            failure: Some(ErrorKind::ConnectionReset),
            at_once: 5,
            ..whole(JOB.get(..at).unwrap_or(JOB))
        };
        let mut output = output(100, rt.alloc())?;
        let failed = failure_of(carry(input, &mut output, rt.alloc()));
        assert_eq!(rt;
            failed,
            Some(Failure::Reading(ErrorKind::ConnectionReset)),
            "byte {at}"
        );
        assert!(rt; holds(&output, b""), "byte {at}");
    }
    Ok(())
}

#[test]
fn a_beginning_is_written_if_the_output_fails(rt: HostRuntime) -> Result<(), Fail> {
    for room in 0..PRINTED.len() {
        for (failure, kind) in [
            (Some(ErrorKind::StorageFull), ErrorKind::StorageFull),
            (None, ErrorKind::WriteZero),
        ] {
            let mut output = output(room, rt.alloc())?;
            output.failure = failure;
            output.at_once = 4;
            let failed = failure_of(carry(whole(JOB), &mut output, rt.alloc()));
            assert_eq!(rt; failed, Some(Failure::Writing(kind)), "byte {room}");
            assert!(rt; holds(&output, &PRINTED[..room]), "byte {room}");
        }
    }
    Ok(())
}

// The heap grows by the smallest block that it can allocate, so each allocation is in turn the first to fail.
#[test]
fn nothing_is_written_if_memory_runs_out(rt: HostRuntime) -> Result<(), Fail> {
    let (mut unread, mut unprinted, mut carried) = (false, false, false);
    for blocks in 1..1_200 {
        let heap = LocalHeap::new(rt.alloc(), 16 * blocks)?;
        let mut output = output(100, rt.alloc())?;
        let failed = failure_of(carry(whole(JOB), &mut output, &heap));
        let written = if failed.is_none() { PRINTED } else { b"" };
        assert!(rt; holds(&output, written), "{blocks} blocks");
        assert_eq!(rt; heap.used(), 0, "{blocks} blocks");
        match failed {
            Some(Failure::Reading(ErrorKind::OutOfMemory)) => unread = true,
            Some(Failure::Memory) => unprinted = true,
            Some(_) => return Err(Fail::new("neither input nor output fails")),
            None => carried = true,
        }
    }
    assert!(rt; unread && unprinted && carried);
    Ok(())
}
