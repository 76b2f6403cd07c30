//! A stream of pulses that runs dry.
use ng_canon::{AxisStep, Item, Pulse};
use ng_pace::{Limits, PaceFault, Stream};
use std::alloc::Allocator;

/// How many pulses are put in at once: two such chords, of which the second comes after the first is at rest.
const PULSES: u64 = 32;

/// Motors that gain a thousand steps a second, each second.
const LIMITS: Limits = Limits {
    accel: [1_000; 3],
    rate: [0; 3],
    start: [0; 3],
    half: 64,
    slack: 2,
    most_percent: 100,
};

/// What was given out, one line after another.
#[derive(Clone, Copy, Debug, PartialEq, Eq)]
struct GivenOut {
    /// The number of the next pulse.
    next: u64,
    /// Whether each was the one whose turn it was.
    in_order: bool,
    ns: u64,
    /// The square of the rate behind the last.
    to: u64,
}

/// The pulse of a number. Each has a period of its own, by which it is told from others.
fn pulse(number: u64) -> Item {
    Item::Pulse(Pulse {
        x: AxisStep::Forward,
        y: AxisStep::Still,
        z: AxisStep::Still,
        period_us: number.saturating_add(10_000),
    })
}

/// Puts the pulses of these numbers in.
fn put<A: Allocator>(stream: &mut Stream<A>, first: u64, last: u64) {
    for number in first..last {
        if !stream.is_full() {
            stream.push(pulse(number));
        }
    }
}

/// Takes lines until none is given.
fn drain<A: Allocator>(stream: &mut Stream<A>, first: u64) -> GivenOut {
    let mut out = GivenOut {
        next: first,
        in_order: true,
        ns: 0,
        to: 0,
    };
    for number in first..first.saturating_add(100) {
        let Some(given) = stream.next(u64::MAX) else {
            break;
        };
        out = GivenOut {
            next: number.saturating_add(1),
            in_order: out.in_order && given.line.item == pulse(number),
            ns: out.ns.saturating_add(given.ns),
            to: given.to,
        };
    }
    out
}

/// Pulses that come in two parts: the first is given out until nothing comes, then the second is put in.
fn starved<A: Allocator + Copy>(alloc: A) -> Result<[GivenOut; 2], PaceFault> {
    let mut stream = Stream::new(alloc, LIMITS, 400)?;
    put(&mut stream, 0, PULSES);
    let first = drain(&mut stream, 0);
    put(&mut stream, PULSES, 2 * PULSES);
    stream.end();
    let second = drain(&mut stream, first.next);
    Ok([first, second])
}

/// Of a chord of 32 pulses the first half is known, since more may change the end of it. So 16 lines are given out, the
/// last three in 14.2, 18.5 and 44.7 ms: 2 over the sum of the roots of 6000, 4000, 2000 and 0. Then the other 48 begin
/// from rest. The times are those of a pacer in Python that was written apart.
#[test]
fn a_stream_that_runs_dry_comes_to_rest_and_goes_on(rt: HostRuntime) {
    let first = GivenOut {
        next: 16,
        in_order: true,
        ns: 233_574_465,
        to: 0,
    };
    let second = GivenOut {
        next: 64,
        in_order: true,
        ns: 581_782_544,
        to: 0,
    };
    assert_eq!(rt; starved(rt.alloc()), Ok([first, second]));
}
