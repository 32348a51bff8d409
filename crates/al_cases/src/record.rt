//! Histories.

use al_record::History;
use std::test::Fail;

#[derive(Clone, Copy)]
enum Step {
    Add(u32),
    Bound(Option<usize>),
    // with the answer
    Compress(bool),
}

/// What is done, and the items then, newest first.
const ROWS: [(Step, &[u32]); 17] = [
    (Step::Compress(false), &[]),
    (Step::Add(1), &[1]),
    (Step::Add(2), &[2, 1]),
    (Step::Add(3), &[3, 2]),
    (Step::Bound(Some(1)), &[3]),
    (Step::Compress(false), &[3]),
    (Step::Add(4), &[4]),
    (Step::Bound(None), &[4]),
    (Step::Add(5), &[5, 4]),
    (Step::Add(6), &[6, 5, 4]),
    (Step::Bound(Some(4)), &[6, 5, 4]),
    (Step::Compress(true), &[6]),
    (Step::Compress(false), &[6]),
    (Step::Add(7), &[7, 6]),
    (Step::Bound(Some(0)), &[]),
    (Step::Add(8), &[]),
    (Step::Compress(false), &[]),
];

/// Carries the step out; whether it answers as it should.
fn carry(history: &mut History<u32>, step: Step) -> bool {
    match step {
        Step::Add(item) => {
            let room = history.reserve().is_ok();
            if room {
                history.add(item);
            }
            room
        }
        Step::Bound(bound) => {
            history.set_bound(bound);
            true
        }
        Step::Compress(gone) => history.compress() == gone,
    }
}

fn shows(history: &History<u32>, items: &[u32]) -> bool {
    history.len() == items.len()
        && history.is_empty() == items.is_empty()
        && (0..=items.len()).all(|place| history.at(place) == items.get(place))
        && history.at(usize::MAX).is_none()
}

/// Whether the step answers as it should, and these are the items then.
fn goes(history: &mut History<u32>, step: Step, items: &[u32]) -> bool {
    carry(history, step) && shows(history, items)
}

#[test]
fn keeps_the_newest(rt: HostRuntime) {
    let mut history = History::new(rt.alloc(), Some(2));
    for (step, items) in &ROWS {
        assert!(rt; goes(&mut history, *step, items), "{items:?}");
    }
}
