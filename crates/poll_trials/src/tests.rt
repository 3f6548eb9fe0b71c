// SPDX-License-Identifier: MIT OR Apache-2.0
//! Why a line is no case, what is made at the limits, how orderings compare, and what answers give.
ghost use Rattle.std.specs.Prelude.{◌/◌};

use crate::case::parse;
use garage::{Amount, Instant, Line, Minute, PastLimit, Slot};
use ordered_stream::{Answer, Function};
use post_log::Class;
use std::test::Fail;

/// The stream is judged before the polls, each number in turn, and what is too much last.
#[test]
fn says_why_a_line_is_no_case(rt: HostRuntime) -> Result<(), Fail> {
    let heap = rt.alloc();
    let lines = [
        ("absent", "no polls"),
        ("nothing; x", "no stream"),
        ("absent now; x", "no stream"),
        ("absent; 1.1.1", "a number is missing"),
        ("absent; 1.3.1", "a number is missing"),
        ("absent; 1.x", "invalid digit found in string"),
        ("absent; 1.3.1.1", "no slot"),
        ("absent; 1.1.1.1.x", "no slot"),
        ("calendar 1 2 3; x", "a number is missing"),
        ("calendar 1 2 3 4 5 6 x; -", "more than a plan"),
    ];
    for (line, why) in lines {
        let said = match parse(heap, line) {
            Ok(_) => String::new(heap),
            Err(error) => error.to_string(heap)?,
        };
        assert_eq!(rt; said.as_str(), why);
    }
    Ok(())
}

#[test]
fn makes_nothing_past_a_limit(rt: HostRuntime) {
    let class = Class::PlugEvent;
    let numbered = |past: PastLimit| (past.number(), past.value());
    let within = [
        Slot::new(0x3FFF_FFFF, class, 1023, 0xF_FFFF).err(),
        Slot::least_of(0x3FFF_FFFF).err(),
        Amount::try_from(0x0FFF_FFFF).err(),
        Line::new(class, 1023, 0x0FFF_FFFF).err(),
    ];
    assert_eq!(rt; within.map(|past| past.map(numbered)), [None; 4]);
    let past = [
        Slot::new(0x4000_0000, class, 1023, 0xF_FFFF).err(),
        Slot::new(0x3FFF_FFFF, class, 1024, 0xF_FFFF).err(),
        Slot::new(0x3FFF_FFFF, class, 1023, 0x10_0000).err(),
        Slot::least_of(0x4000_0000).err(),
        Amount::try_from(0x1000_0000).err(),
        Line::new(class, 1024, 0x0FFF_FFFF).err(),
        Line::new(class, 1023, 0x1000_0000).err(),
    ];
    assert_eq!(rt; past.map(|past| past.map(numbered)), [Some((6, 0)); 7]);
}

fn slot(instant: u32, class: Class, post: u32, number: u32) -> Slot {
    Slot {
        instant,
        class,
        post,
        number,
    }
}

#[test]
fn compares_by_each_part_in_turn(rt: HostRuntime) {
    let middle = slot(7, Class::Reading, 7, 7);
    let below = [
        slot(6, Class::PlugEvent, 9, 9) < middle,
        slot(7, Class::Tariff, 9, 9) < middle,
        slot(7, Class::Reading, 6, 9) < middle,
        slot(7, Class::Reading, 7, 6) < middle,
        middle > slot(7, Class::Reading, 7, 6),
        middle.cmp(&middle).is_eq(),
        Instant { seconds: 1 } < Instant { seconds: 2 },
        Minute { minutes: 2 } > Minute { minutes: 1 },
    ];
    assert_eq!(rt; below, [true; 8]);
}

struct Halved;

impl Function<u32> for Halved {
    type Output = u32;

    ghost image = { λ _ x. x / 2 };

    fn apply(&self, x: u32) -> u32 {
        x / 2
    }
}

#[test]
fn takes_answers_apart(rt: HostRuntime) {
    let item = Answer::Item {
        ordering: 3u32,
        datum: 8u32,
    };
    let pending: Answer<u32, u32> = Answer::Pending;
    assert_eq!(rt; [item.into_data(), pending.into_data()], [Some(8), None]);
    let mapped = [
        item.map_data(&Halved).into_tuple(),
        pending.map_data(&Halved).into_tuple(),
    ];
    assert_eq!(rt; mapped, [Some((3, 4)), None]);
    let failed: Answer<u32, Result<u32, u8>> = Answer::Item {
        ordering: 3,
        datum: Err(5),
    };
    assert_eq!(rt; failed.transpose_result(), Err(5));
    assert_eq!(rt; failed.transpose_result_item(), Err((3, 5)));
}
