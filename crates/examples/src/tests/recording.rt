use crate::tests::owner::Owner;
use cuts::conditions::{Watched, condition};
use cuts::fault::JobFault;
use cuts::job::TraceJob;
use lattice::board::{Board, DECIDING};
use lattice::verdict::Answer;
use payload::kinds::ScanWish;
use payload::wish::Wish;
use std::test::Fail;
use trace::event::Action;

// Process 0 sends message 7 to 1, which has an event before it receives the message and one after.
fn record(job: &mut TraceJob, wish: u8, linked: bool) -> Result<(), JobFault> {
    job.begin(2, 3, Wish::Code(wish))?;
    if linked {
        job.add_channel(0, 1)?;
    }
    job.push(0, Action::Send { to: 1, message: 7 }, &[5])?;
    job.push(1, Action::Local, &[5])?;
    job.push(1, Action::Receive { message: 7 }, &[2])?;
    job.push(1, Action::Local, &[5])
}

// What a new board comes to, with its heights at places 0 and 1.
fn search(job: &TraceJob) -> (Answer, u32, u32) {
    let mut board = Board::new();
    let answer = board.run(&condition(job), DECIDING);
    let reading = board.read();
    let heights = reading.vector.heights();
    (answer, heights[0], heights[1])
}

#[test]
fn the_sample_cuts(rt: HostRuntime) -> Result<(), Fail> {
    let mut job = TraceJob::new(rt.alloc())?;
    assert!(rt; record(&mut job, 5, true).is_ok());
    let (answer, first, second) = search(&job);
    assert!(rt; answer == Answer::Found && first == 1 && second == 3);
    assert!(rt; record(&mut job, 5, false).is_ok());
    let (answer, first, second) = search(&job);
    assert!(rt; answer == Answer::Found && first == 1 && second == 1);
    assert!(rt; record(&mut job, 9, true).is_ok());
    let (answer, _, _) = search(&job);
    assert!(rt; answer == Answer::None);
    Ok(())
}

// A condition that owns its job is searched as one that borrows it is: the sample's processes are watched for 5.
#[test]
fn a_condition_can_own_its_job(rt: HostRuntime) -> Result<(), Fail> {
    let mut job = TraceJob::new(rt.alloc())?;
    assert!(rt; record(&mut job, 5, true).is_ok());
    let watched = Watched {
        job: Owner { content: job },
    };
    let mut board = Board::new();
    assert!(rt; board.run(&watched, DECIDING) == Answer::Found);
    assert!(rt; board.read().count == 2);
    Ok(())
}

// The first two entries of the clock at a place.
fn clock_at(job: &TraceJob, at: usize) -> Option<(u32, u32)> {
    let clock = job.trace().clock(at)?;
    Some((clock.entries[0], clock.entries[1]))
}

#[test]
fn the_sample_clocks(rt: HostRuntime) -> Result<(), Fail> {
    let mut job = TraceJob::new(rt.alloc())?;
    assert!(rt; record(&mut job, 5, true).is_ok());
    assert_eq!(rt; clock_at(&job, 0), Some((1, 0)));
    assert_eq!(rt; clock_at(&job, 1), Some((0, 1)));
    assert_eq!(rt; clock_at(&job, 2), Some((1, 2)));
    assert_eq!(rt; clock_at(&job, 3), Some((1, 3)));
    assert_eq!(rt; clock_at(&job, 4), None);
    Ok(())
}

// Which message rule or other rule an event breaks, after the sample.
fn refused(job: &mut TraceJob, process: u8, action: Action) -> bool {
    matches!(job.push(process, action, &[0]), Err(JobFault::Event(_)))
}

#[test]
fn rules_of_events(rt: HostRuntime) -> Result<(), Fail> {
    let mut job = TraceJob::new(rt.alloc())?;
    assert!(rt; record(&mut job, 5, true).is_ok());
    assert!(rt; refused(&mut job, 2, Action::Local));
    assert!(rt; refused(&mut job, 0, Action::Send { to: 0, message: 8 }));
    assert!(rt; refused(&mut job, 0, Action::Send { to: 2, message: 8 }));
    assert!(rt; refused(&mut job, 1, Action::Send { to: 0, message: 7 }));
    assert!(rt; refused(&mut job, 1, Action::Receive { message: 7 }));
    assert!(rt; refused(&mut job, 1, Action::Receive { message: 8 }));
    assert!(rt; matches!(job.push(0, Action::Local, &[1, 2]), Err(JobFault::Payload)));
    assert!(rt; job.trace().len() == 4);
    assert!(rt;
        job.push(0, Action::Send { to: 1, message: 8 }, &[0])
            .is_ok()
    );
    assert!(rt; refused(&mut job, 0, Action::Receive { message: 8 }));
    assert!(rt; job.push(1, Action::Receive { message: 8 }, &[0]).is_ok());
    Ok(())
}

#[test]
fn scans(rt: HostRuntime) -> Result<(), Fail> {
    let mut job = TraceJob::new(rt.alloc())?;
    assert!(rt;
        job.begin(
            1,
            1,
            Wish::Scan(ScanWish {
                stop: 258,
                parcels: 3,
            }),
        )
        .is_ok()
    );
    assert!(rt; job.push(0, Action::Local, &[1, 2, 0, 4]).is_ok());
    assert!(rt; job.push(0, Action::Local, &[2, 1, 0, 3]).is_ok());
    assert!(rt; job.push(0, Action::Local, &[1, 2, 0, 3]).is_ok());
    assert_eq!(rt; job.next_wanted(0, 0), Some(3));
    assert_eq!(rt; job.next_wanted(0, 3), None);
    Ok(())
}
