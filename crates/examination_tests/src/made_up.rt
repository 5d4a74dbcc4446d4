//! A discipline of our own, with relations that no sensible queue has, put through the same calls.
ghost use Rattle.std.specs.Prelude.{nat_le, nat_lt};
ghost use Rattle.recording.specs.Posts.{delay_number};

use crate::examined::{add, examined, races_never, races_once, refusal, row};
use dispatch::discipline::Discipline;
use recording::code::Code;
use recording::marks::Marks;
use recording::row::Row;
use rules::order::Order;
use std::test::Fail;

/// Admits no delay above the longest; a post precedes those whose delay is shorter than its own.
#[derive(Clone, Copy)]
struct LongestFirst {
    longest: u32,
}

impl Discipline for LongestFirst {
    ghost admission = { λ d post. nat_le (delay_number post) d.longest };

    ghost precedence = { λ _ earlier later. nat_lt (delay_number later) (delay_number earlier) };

    fn admits(&self, post: Marks) -> bool {
        post.delay.unwrap_or(0) <= self.longest
    }

    fn precedes(&self, earlier: Marks, later: Marks) -> bool {
        later.delay.unwrap_or(0) < earlier.delay.unwrap_or(0)
    }
}

fn delayed_post(task: u16, delay: u32) -> Row {
    Row {
        marks: 2,
        delay,
        ..row(Code::Post, 1, task, 0)
    }
}

/// Thread 1 posts tasks 5 and 6 to thread 0, delayed so long.
fn posted(first: u32, second: u32) -> [Row; 6] {
    [
        row(Code::ThreadInit, 0, 0, 0),
        row(Code::ThreadInit, 1, 0, 0),
        row(Code::AttachQ, 0, 0, 0),
        row(Code::LoopOnQ, 0, 0, 0),
        delayed_post(5, first),
        delayed_post(6, second),
    ]
}

/// Both tasks write location 9, one after the other.
const WRITES: [(Code, u16); 5] = [
    (Code::Begin, 5),
    (Code::Write, 9),
    (Code::End, 5),
    (Code::Begin, 6),
    (Code::Write, 9),
];

#[test]
fn the_longer_delay_is_first(rt: HostRuntime) -> Result<(), Fail> {
    let discipline = LongestFirst { longest: 9 };
    let mut examination = examined(rt, discipline, 3, &posted(9, 1))?;
    assert_eq!(rt;
        refusal(&mut examination, row(Code::Begin, 0, 6, 0))?,
        Some(16)
    );
    for (code, item) in WRITES {
        add(&mut examination, row(code, 0, item, 0))?;
    }
    assert!(rt; races_never(&examination));
    assert_eq!(rt; examination.order(7, 10), Ok(Order::Before));
    Ok(())
}

#[test]
fn the_shorter_delay_is_in_no_order(rt: HostRuntime) -> Result<(), Fail> {
    let discipline = LongestFirst { longest: 9 };
    let mut examination = examined(rt, discipline, 3, &posted(1, 9))?;
    assert_eq!(rt; refusal(&mut examination, delayed_post(7, 10))?, Some(17));
    for (code, item) in WRITES {
        add(&mut examination, row(code, 0, item, 0))?;
    }
    assert!(rt; races_once(&examination, 7, 10, 3));
    assert!(rt; examination.cut(6).is_ok());
    assert_eq!(rt; add(&mut examination, row(Code::Begin, 0, 6, 0))?, 6);
    Ok(())
}
