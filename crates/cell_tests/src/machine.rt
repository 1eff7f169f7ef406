//! The machine of pins: worked runs, by `drive` and event by event.
ghost use Rattle.std.specs.Prelude.{◌≤◌};

use pin_core::words::{ENTERING, IDLE, pin_after_exchange, version_of_pin, word_of_version};
use pin_core::{
    CellAt, Event, Half, Image, LAST_VERSION, References, Spent, State, Step, drive, next_version,
};
use std::alloc::{AllocError, Global};
use std::process::Abort;
use std::test::Fail;

fn write(at: u32, value: u64) -> Event {
    Event::Write {
        at,
        half: Half::Big,
        value,
    }
}

fn read(at: u32) -> Event {
    Event::Read {
        pass: 0,
        at,
        half: Half::Big,
    }
}

fn publish(alloc: Global, cell: u32) -> Result<Event, AllocError> {
    let cells = References {
        items: vec![in alloc; cell]?,
    };
    Ok(Event::Publish {
        root: Some(cell),
        cells,
    })
}

const DONE: Step = Step::Done;

const NO: Step = Step::Refused;

/// Asserts what events answer to one pass over so many chunks, by `drive` and one by one.
fn check(
    rt: &impl Abort,
    alloc: Global,
    chunks: u32,
    rows: Vec<(Event, Step)>,
) -> Result<(), AllocError>
    requires { (1 ≤ chunks) × (chunks ≤ 2) }
{
    let mut events = Vec::new(alloc);
    let mut state = State::start(alloc, 1, chunks)?;
    let mut answers = Vec::new(alloc);
    for (event, answer) in rows {
        assert_eq!(rt; state.step(alloc, &event)?, answer);
        events.push(event)?;
        answers.push(answer)?;
    }
    assert_eq!(rt;
        drive(alloc, 1, chunks, &events)?.as_slice(),
        answers.as_slice()
    );
    Ok(())
}

// A pass looks at version 1, is helped to version 2, and reads that while version 1's chunk is given again.
#[test]
fn a_pass_is_helped(rt: HostRuntime) -> Result<(), Fail> {
    let rows = vec![in rt.alloc();
        (Event::Give(0), DONE),
        (write(0, 11), DONE),
        (publish(rt.alloc(), 0)?, DONE),
        (Event::Enter(0), DONE),
        (Event::Look(0), DONE),
        (Event::Give(1), DONE),
        (write(1024, 22), DONE),
        (publish(rt.alloc(), 1024)?, DONE),
        (Event::Scan(0), DONE),
        (Event::Assign(0), DONE),
        (Event::Free(0), DONE),
        (Event::Give(0), DONE),
        (write(0, 33), DONE),
        (Event::Settle(0), Step::Pinned { version: 2 }),
        (read(1024), Step::Word { value: 22 }),
        (read(0), NO),
        (Event::Free(1), NO),
        (Event::Leave(0), DONE),
        (Event::Leave(0), NO),
    ]?;
    Ok(check(&rt, rt.alloc(), 2, rows)?)
}

// It is not assigned to, and the round ends.
#[test]
fn a_pass_settles_by_itself(rt: HostRuntime) -> Result<(), Fail> {
    let rows = vec![in rt.alloc();
        (Event::Enter(0), DONE),
        (Event::Look(0), DONE),
        (Event::Scan(0), DONE),
        (Event::Settle(0), Step::Pinned { version: 0 }),
        (Event::Assign(0), DONE),
        (Event::Assign(0), NO),
        (Event::Leave(0), DONE),
        (Event::Settle(0), NO),
        (Event::Free(0), NO),
        (
            Event::Learn {
                pass: 0,
                version: 1
            },
            NO
        ),
    ]?;
    Ok(check(&rt, rt.alloc(), 1, rows)?)
}

#[test]
fn version_zero_has_an_image(rt: HostRuntime) -> Result<(), Fail> {
    let cell = CellAt {
        at: 5,
        big: 44,
        small: 55,
    };
    let cells = vec![in rt.alloc(); cell]?;
    let mut state = State::open(rt.alloc(), 1, 1, Some(5), Image { cells })?;
    let events = [Event::Enter(0), Event::Look(0), Event::Settle(0), read(5)];
    let steps = state.play(rt.alloc(), &events)?;
    let pinned = Step::Pinned { version: 0 };
    let word = Step::Word { value: 44 };
    assert_eq!(rt; steps.as_slice(), [DONE, DONE, pinned, word].as_slice());
    Ok(())
}

/// Version 3, whose root is cell 7 of chunk 5: what the table says of it, and what the pin of a pass that reads it does.
#[test]
fn words_of_a_version(rt: HostRuntime) {
    let word = word_of_version(3, Some(5 * 1024 + 7));
    assert_eq!(rt; word, 0x300_1407);
    let pin = pin_after_exchange(ENTERING, word);
    assert_eq!(rt; pin, 0x300_1409);
    assert_eq!(rt; version_of_pin(pin), 3);
    assert_eq!(rt; pin_after_exchange(IDLE, word), IDLE);
}

#[test]
fn versions_end(rt: HostRuntime) {
    assert_eq!(rt;
        next_version(LAST_VERSION),
        Err(Spent {
            version: LAST_VERSION
        })
    );
    assert_eq!(rt; next_version(LAST_VERSION - 1), Ok(LAST_VERSION));
}
