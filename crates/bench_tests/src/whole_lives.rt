//! Whole lives, with mirror and way back.
use any_bench::answer::Answer;
use faults::run::BenchRefusal;
use lattice::start::Start;
use lives::event::{Event, Lent, Reply, Seen};
use lives::life::live;
use lives::memories::Memories;
use lives::outcome::WayBack;
use named_maps::blocks::bbm;
use reverse_script::refusal::ScriptRefusal;
use scripts::record::Record;
use std::test::Fail;

const NOTHING: Reply = Reply {
    answer: Answer::Skipped,
    counts: (9, 9, 9, 9),
};

const UNSEEN: Seen = Seen {
    bench: NOTHING,
    mirror: NOTHING,
};

fn own(call: Record) -> Event {
    Event {
        call,
        lent: Lent::Own,
    }
}

// A step, a flip that the state does not permit, a step count that has no opposite, undos with other memories, and a step.
fn events() -> [Event; 6] {
    let undo = Record::Undo;
    [
        own(Record::Step(1)),
        own(Record::Flip {
            col: 0,
            row: 0,
            mask: 1,
        }),
        own(Record::Step(i32::MIN)),
        Event {
            call: undo,
            lent: Lent::Part(3),
        },
        Event {
            call: undo,
            lent: Lent::Part(4),
        },
        own(Record::Step(2)),
    ]
}

#[test]
fn bench_mirror_and_way_back(rt: HostRuntime) -> Result<(), Fail> {
    let mut cells = [1, 0, 0, 0];
    let mut mirror = [7; 4];
    let mut home = [7; 4];
    let mut second = [8; 9];
    let mut script = [b'.'; 20];
    let mut memories = Memories {
        cells: &mut cells,
        mirror: &mut mirror,
        home: &mut home,
        second: &mut second,
        script: &mut script,
        seen: &mut [],
    };
    let outcome = live(&bbm(), Start::new(2, 2, 0)?, &events(), &mut memories)?;
    assert_eq!(rt;
        (outcome.start.phase(), outcome.mirror_start.phase()),
        (1, 1)
    );
    assert!(rt; cells == [0, 0, 0, 1]);
    assert!(rt; mirror == [0, 0, 0, 1]);
    assert!(rt; home == [1, 0, 0, 0]);
    assert!(rt; second == [8; 9]);
    assert!(rt; script == *b"step\t-2\nstep\t-1\n....");
    let WayBack::Gone(journey) = outcome.way_back else {
        return Err(Fail::from(BenchRefusal::Cells));
    };
    assert_eq!(rt; journey.script_len, 16);
    assert_eq!(rt; journey.answer, Ok(2));
    assert_eq!(rt; journey.counts, (2, 0, -3, 0));
    Ok(())
}

#[test]
fn each_event_is_told_of(rt: HostRuntime) -> Result<(), Fail> {
    let mut seen = [UNSEEN; 7];
    let mut memories = Memories {
        cells: &mut [1, 0, 0, 0],
        mirror: &mut [0; 4],
        home: &mut [0; 4],
        second: &mut [0; 9],
        script: &mut [0; 20],
        seen: &mut seen,
    };
    live(&bbm(), Start::new(2, 2, 0)?, &events(), &mut memories)?;
    let answers = [
        Answer::Standing(1),
        Answer::Skipped,
        Answer::Refused(BenchRefusal::StepCount),
        Answer::Refused(BenchRefusal::Cells),
        Answer::Skipped,
        Answer::Standing(2),
    ];
    for (reply, answer) in seen.iter().zip(answers.iter()) {
        assert_eq!(rt; reply.bench.answer, *answer);
        assert_eq!(rt; reply.mirror.answer, *answer);
    }
    assert_eq!(rt; seen[5].bench.counts, (2, 0, 3, 1));
    assert_eq!(rt; seen[5].mirror.counts, (2, 0, -3, 1));
    assert_eq!(rt; seen[6], UNSEEN);
    Ok(())
}

// The way back of a life of these events over bbm, with this memory for the script.
fn way_back(events: &[Event], script: &mut [u8]) -> Result<WayBack, Fail> {
    let mut memories = Memories {
        cells: &mut [1, 0, 0, 0],
        mirror: &mut [0; 4],
        home: &mut [0; 4],
        second: &mut [],
        script,
        seen: &mut [],
    };
    Ok(live(&bbm(), Start::new(2, 2, 0)?, events, &mut memories)?.way_back)
}

#[test]
fn a_life_can_end_without_a_way_back(rt: HostRuntime) -> Result<(), Fail> {
    let mut script = [b'.'; 7];
    assert_eq!(rt;
        way_back(&[own(Record::Open)], &mut script)?,
        WayBack::InSession
    );
    assert_eq!(rt;
        way_back(&[own(Record::Step(1))], &mut script)?,
        WayBack::Refused(ScriptRefusal::MemoryTooShort)
    );
    assert!(rt; script == [b'.'; 7]);
    Ok(())
}

#[test]
fn a_life_wants_whole_memories(rt: HostRuntime) -> Result<(), Fail> {
    for (cells, mirror, home) in [(3, 4, 4), (4, 5, 4), (4, 4, 0)] {
        let mut memory = [1; 15];
        let (first, rest) = memory.split_at_mut(cells);
        let (second, rest) = rest.split_at_mut(mirror);
        let mut memories = Memories {
            cells: first,
            mirror: second,
            home: &mut rest[..home],
            second: &mut [],
            script: &mut [],
            seen: &mut [],
        };
        let outcome = live(
            &bbm(),
            Start::new(2, 2, 0)?,
            &[own(Record::Step(1))],
            &mut memories,
        );
        assert_eq!(rt; outcome.err(), Some(BenchRefusal::Cells));
        assert!(rt; memory == [1; 15]);
    }
    Ok(())
}
