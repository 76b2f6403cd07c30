//! Whole numbers, and lengths in both units. What operations give is tested by the cases of `ngc_cases`.
use ng_num::{Fault, Len, Num, Unit, nm_of};
use std::test::Fail;

/// A count of millionths, and what is asked of it.
#[derive(Clone, Copy)]
enum Operation {
    Whole(i64),
    Inches(i64),
    Millimetres(i64),
}

/// The result: a count of nanometres or a whole number; or the fault if there is none.
#[derive(Clone, Copy, Debug, PartialEq, Eq)]
enum Answer {
    Is(i64),
    Not(Fault),
    NotWhole,
}

use Answer::{Is, Not, NotWhole};
use Operation::{Inches, Millimetres, Whole};

const GREATEST: i64 = 9_999_999_999_999;

/// The number of a count in range.
fn num(count: i64) -> Num {
    Num::of(count as i128).unwrap_or_default()
}

/// The result that is a number, or its fault.
fn number(answer: Result<Num, Fault>) -> Answer {
    match answer {
        Ok(number) => Is(number.count()),
        Err(fault) => Not(fault),
    }
}

/// The result that is a length, or its fault.
fn length(answer: Result<Len, Fault>) -> Answer {
    match answer {
        Ok(length) => Is(length.nm()),
        Err(fault) => Not(fault),
    }
}

/// What the crate returns.
fn answered(operation: Operation) -> Answer {
    match operation {
        Whole(a) => match num(a).whole() {
            Some(n) => Is(n),
            None => NotWhole,
        },
        Inches(a) => length(nm_of(num(a), Unit::Inches)),
        Millimetres(a) => length(nm_of(num(a), Unit::Millimetres)),
    }
}

/// Operations and their results, worked out by hand; inches are rounded half away from zero.
const ANSWERS: &[(Operation, Answer)] = &[
    (Whole(0), Is(0)),
    (Whole(100), Is(0)),
    (Whole(101), NotWhole),
    (Whole(-100), Is(0)),
    (Whole(-101), NotWhole),
    (Whole(999_900), Is(1)),
    (Whole(999_899), NotWhole),
    (Whole(1_000_100), Is(1)),
    (Whole(1_000_101), NotWhole),
    (Whole(-5_000_100), Is(-5)),
    (Whole(-5_000_101), NotWhole),
    (Whole(500_000), NotWhole),
    (Whole(GREATEST), Is(10_000_000)),
    (Whole(-GREATEST), Is(-10_000_000)),
    (Inches(0), Is(0)),
    (Inches(1), Is(25)),
    (Inches(2), Is(51)),
    (Inches(-1), Is(-25)),
    (Inches(-2), Is(-51)),
    (Inches(1_000_000), Is(25_400_000)),
    (Inches(-1_000_000), Is(-25_400_000)),
    (Inches(393_700_787_401), Is(9_999_999_999_985)),
    (Inches(393_700_787_402), Not(Fault::OutOfRange)),
    (Inches(-393_700_787_402), Not(Fault::OutOfRange)),
    (Millimetres(1), Is(1)),
    (Millimetres(GREATEST), Is(GREATEST)),
];

#[test]
fn whole_numbers_and_lengths_in_both_units(rt: HostRuntime) {
    for (operation, answer) in ANSWERS {
        let found = answered(*operation);
        assert!(rt; found == *answer, "{found:?} in place of {answer:?}");
    }
}

#[test]
fn lengths_add_and_compare(rt: HostRuntime) -> Result<(), Fail> {
    let longest = Len::of_nm(GREATEST as i128)?;
    let short = Len::of_nm(-5)?;
    let answers = [
        length(longest.add(short)),
        length(longest.sub(short)),
        length(short.sub(longest)),
        length(Ok(short.neg())),
        length(Len::of_nm(10_000_000_000_000)),
        number(Num::of(-10_000_000_000_000)),
    ];
    let out_of_range = Not(Fault::OutOfRange);
    assert_eq!(rt;
        answers,
        [
            Is(GREATEST - 5),
            out_of_range,
            out_of_range,
            Is(5),
            out_of_range,
            out_of_range
        ]
    );
    assert!(rt; short < Len::zero() && longest > short.neg() && num(-1) < num(0));
    Ok(())
}
