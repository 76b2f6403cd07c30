//! The job, and the machine that does it.
use anyhow::{Context, Result};
use ng_num::{Fault, Len, Point};

/// A pocket of 24 by 12 mm, 2 mm deep: an end mill of 8 mm goes around once. Parameter 1 is the depth, and parameter 2
/// counts the sides.
pub const PROGRAM: &str = "\
(POCKET 24 BY 12 MM, END MILL 8 MM)
G21 G90 S8000 M3 #1=-2
G0 X4 Y4 Z5
G1 Z#1 F200
G91 F900 X16 #2=[#2+1]
Y4 #2=[#2+1]
X-16 #2=[#2+1]
Y-4 #2=[#2+1]
G90 G0 Z5
M2
";

/// How far an axis moves by one pulse.
const STEP_NM: i64 = 10_000;

/// The settings of the machine, with a step of `STEP_NM`.
pub const SETTINGS: &str = "\
step_nm = [10000, 10000, 10000]
low_nm = [0, 0, -50000000]
high_nm = [200000000, 100000000, 50000000]
traverse_nm_per_min = 3000000000
period_us = 40
tools_nm = []
";

/// A line of the program.
#[derive(Clone, Copy)]
pub struct Line {
    /// Counted from 1.
    pub number: usize,
    pub text: &'static str,
}

/// The line that begins at a byte of the program.
pub fn line_at(place: u64) -> Result<Line> {
    let mut begin = 0u64;
    for (before, text) in PROGRAM.lines().enumerate() {
        if begin == place {
            let number = before.saturating_add(1);
            return Ok(Line { number, text });
        }
        begin = begin.saturating_add(text.len() as u64).saturating_add(1);
    }
    None.context("no line of the program begins there")
}

/// The length of this many steps.
fn length_of(steps: i64) -> Result<Len, Fault> {
    Len::of_nm(i128::from(steps) * i128::from(STEP_NM))
}

/// The point to which this many steps of each axis lead.
pub fn moved_by(from: Point, steps: [i64; 3]) -> Result<Point, Fault> {
    let [x, y, z] = steps;
    Ok(Point {
        x: from.x.add(length_of(x)?)?,
        y: from.y.add(length_of(y)?)?,
        z: from.z.add(length_of(z)?)?,
    })
}

/// How many steps an axis makes from one coordinate to another; both are a whole number of steps.
fn steps_between(from: Len, to: Len) -> i64 {
    (to.nm() - from.nm()) / STEP_NM
}

/// How many pulses a straight line takes: the steps of the axis that makes the most.
pub fn pulses_between(from: Point, to: Point) -> u64 {
    let x = steps_between(from.x, to.x).unsigned_abs();
    let y = steps_between(from.y, to.y).unsigned_abs();
    let z = steps_between(from.z, to.z).unsigned_abs();
    x.max(y).max(z)
}
