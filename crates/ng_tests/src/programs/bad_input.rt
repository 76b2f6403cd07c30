//! Lines that nobody would write. Each is refused or read, at once.
use super::{dry_text, executed};
use ng_dry::Ended;
use ng_num::Fault;
use ng_state::State;
use std::alloc::Global;
use std::test::Fail;

/// The next of a sequence of pseudo-random numbers (Marsaglia's xorshift).
fn next_random(chance: u64) -> u64 {
    let a = chance ^ (chance << 13);
    let b = a ^ (a >> 7);
    b ^ (b << 17)
}

/// Lines with much of the grammar.
const ROWS: &[&str] = &[
    "N12 G0 X[2.0/3*1.5-5.5/11.0] Y##2 (MSG, a) (b)",
    "G0 XFIX[-2.8] YFUP[-2.8] Z[-7MOD3]",
    "#3=6 G1 X#3 F100 #[1+2**3]=ROUND[SQRT[2]]",
    "#2=3 #3=7 G0 X##2 Y[2-3-4] Z[5MOD3**2]",
    "G0 X[1 AND 0 OR 1 XOR ABS[-1]]",
    "/ n 7 g 9 1 g 1 x - . 5 f 1 0",
    "G0 X[[[[1]]]] Y#[#[#1+1]+1]",
    "%",
];

/// How a program with one line ends: whether it is refused in its first or second line, with a last line that says so.
fn is_refused(alloc: Global, line: &[u8]) -> bool {
    let (text, ended) = dry_text(alloc, line, false);
    match ended {
        Ok(Ended::Refused(1, fault)) => ends_with(text.as_slice(), b"REFUSED line 1: ", fault),
        Ok(Ended::Refused(2, fault)) => ends_with(text.as_slice(), b"REFUSED line 2: ", fault),
        _ => false,
    }
}

/// Whether a text ends with a refusal.
fn ends_with(text: &[u8], before: &[u8], fault: Fault) -> bool {
    match text.strip_suffix(b"\n") {
        Some(rest) => match rest.strip_suffix(fault.text()) {
            Some(front) => front.ends_with(before),
            None => false,
        },
        None => false,
    }
}

#[test]
fn broken_lines_are_refused_with_a_fault(rt: HostRuntime) -> Result<(), Fail> {
    let mut chance: u64 = 0x9e37_79b9_7f4a_7c15;
    let state = State::fresh(rt.alloc())?;
    for i in 0..10_000 {
        let mut line = [0u8; 40];
        for byte in &mut line {
            chance = next_random(chance);
            *byte = (chance % 256) as u8;
        }
        let done = executed(&state, &line);
        // a random line may be one comment
        assert!(rt;
            matches!(done, Err(Fault::Unreadable)) || line[0] == b'(',
            "line {i}"
        );
    }
    Ok(())
}

#[test]
fn one_byte_is_not_a_program(rt: HostRuntime) {
    for byte in b"[#-0123456789]*+/(.)=%GXN \t" {
        let line = [*byte; 256];
        assert!(rt; is_refused(rt.alloc(), &line), "byte {byte}");
    }
}

#[test]
fn cut_lines_are_refused_with_a_fault(rt: HostRuntime) {
    for row in ROWS {
        let line = row.as_bytes();
        for n in 0..=line.len() {
            assert!(rt; is_refused(rt.alloc(), &line[..n]), "{row:?} cut at {n}");
        }
    }
}
