//! A cycle's lengths in machine coordinates. E3 if one of them is out of range.
ghost use Rattle.std.specs.Prelude.{◌≡◌, ◌≤◌, ◌+ℤ◌, ◌-ℤ◌, ◌*ℤ◌, ◌||◌, ◌++◌, pos, true, false, flat_map, IfOk};
ghost use Rattle.std.specs.List.{list_any};
ghost use Rattle.ng_num.specs.Range.{IsCount};
ghost use Rattle.ng_cycles.specs.Heights.{hole_axis_of, r_of, heights_of, place_lengths, r_lengths, z_lengths, height_lengths, lengths, lengths_in, optional_lengths_of, repeated, is_far, far_unless};
ghost use Rattle.ng_cycles.specs.Strokes.{numbers_from, coordinate};
ghost use Rattle.ng_offsets.specs.Offsets.{shift_z};

use crate::drill::HoleAxis;
use crate::holes::times;
use crate::words::{CycleContext, CycleWords};
use ng_num::{Fault, Len};
use ng_offsets::Shift;
use ng_state::KeptWords;

/// R and Z in machine coordinates, if their words are there. Under G91 Z is `None` if R is missing.
#[derive(Clone, Copy)]
pub(crate) struct Heights {
    pub r: Option<Len>,
    pub z: Option<Len>,
}

/// A cycle's lengths in machine coordinates; R and Z may be missing.
#[derive(Clone, Copy)]
pub(crate) struct OptionalLengths {
    pub x: HoleAxis,
    pub y: HoleAxis,
    pub heights: Heights,
}

/// A cycle's lengths in machine coordinates.
#[derive(Clone, Copy)]
pub(crate) struct Lengths {
    pub x: HoleAxis,
    pub y: HoleAxis,
    pub r: Len,
    pub z: Len,
}

/// Whether a coordinate, with a length added for each repeat, is out of the range of lengths.
fn is_far(coordinate: Len, repeats: u32, length: Len) -> bool
    ensures { result ≡ is_far (coordinate +ℤ pos repeats *ℤ length) }
{
    let added = times(repeats, length);
    (coordinate.nm() as i128 + added).unsigned_abs() > 9_999_999_999_999
}

fn is_either(one: bool, other: bool) -> bool
    ensures { result ≡ (one || other) }
{
    one || other
}

/// Whether the coordinates at any hole are out of range. If so, those at the last one are.
fn reaches_far(current: Len, at: Len, word: Len, repeats: u32) -> bool
    requires { 1 ≤ repeats }
    ensures far { result ≡ list_any is_far (flat_map (repeated current at word) (numbers_from 1 repeats)) }
    ensures last { result ≡ false → IsCount (at +ℤ pos repeats *ℤ word) }
{
    // Called for their contract: the lengths are in range.
    let _range = (current.nm(), at.nm());
    is_either(is_far(current, repeats, word), is_far(at, repeats, word))
}

/// The holes' coordinates along an axis, starting at the current coordinate.
fn stepping(word: Len, shift: Shift, at: Len, repeats: u32) -> Result<HoleAxis, Fault>
    requires { 1 ≤ repeats }
    ensures hole_axis { result ≡ far_unless (place_lengths true (Some word) shift at repeats) (hole_axis_of true (Some word) shift at) }
    ensures reaches { IfOk result (λ hole_axis. IsCount (coordinate hole_axis repeats)) }
{
    let current = shift.to_program(at)?;
    if reaches_far(current, at, word, repeats) {
        return Err(Fault::OutOfRange);
    }
    Ok(HoleAxis {
        from: at,
        step: word,
    })
}

/// The holes' coordinates along an axis.
pub(crate) fn hole_axis_of(
    is_incremental: bool,
    word: Option<Len>,
    shift: Shift,
    at: Len,
    repeats: u32,
) -> Result<HoleAxis, Fault>
    requires { 1 ≤ repeats }
    ensures hole_axis { result ≡ far_unless (place_lengths is_incremental word shift at repeats)
        (hole_axis_of is_incremental word shift at) }
    ensures reaches { IfOk result (λ hole_axis. IsCount (coordinate hole_axis repeats)) }
{
    match word {
        None => {
            // Called for its contract: the length is in range.
            let _range = at.nm();
            Ok(HoleAxis {
                from: at,
                step: Len::zero(),
            })
        }
        Some(word) => if is_incremental {
            stepping(word, shift, at, repeats)
        } else {
            let from = shift.to_machine(word)?;
            // Called for its contract: the length is in range.
            let _range = from.nm();
            Ok(HoleAxis {
                from,
                step: Len::zero(),
            })
        },
    }
}

/// R, from its word.
fn r_of(is_incremental: bool, word: Len, shift: Shift, at: Len) -> Result<Len, Fault>
    ensures { result ≡ far_unless (r_lengths is_incremental (Some word) shift at) (r_of is_incremental word shift at) }
{
    if is_incremental {
        let current = shift.to_program(at)?;
        current.add(word)?;
        at.add(word)
    } else {
        shift.to_machine(word)
    }
}

/// Z, from a word that counts from R.
fn z_from(r: Len, word: Len, shift: Shift, at: Len) -> Result<Len, Fault>
    requires current { IsCount (at -ℤ shift) }
    requires r { IsCount ((at -ℤ shift) +ℤ r) }
    requires machine { IsCount (at +ℤ r) }
    ensures { result ≡ far_unless (z_lengths true (Some r) (Some word) shift at) ((at +ℤ r) +ℤ word) }
{
    let current = shift.to_program(at).unwrap();
    current.add(r).unwrap().add(word)?;
    at.add(r).unwrap().add(word)
}

/// R and Z under G91.
fn heights_from(words: &KeptWords, shift: Shift, at: Len) -> Result<Heights, Fault>
    ensures { result ≡ far_unless
        (r_lengths true words.now.r shift at ++ z_lengths true words.now.r words.now.z shift at)
        (heights_of true words.now shift at) }
{
    let (r, z) = match words.r {
        None => (None, None),
        Some(word) => {
            let r = r_of(true, word, shift, at)?;
            match words.z {
                None => (Some(r), None),
                Some(z) => (Some(r), Some(z_from(word, z, shift, at)?)),
            }
        }
    };
    Ok(Heights { r, z })
}

/// R and Z under G90.
fn heights_at(words: &KeptWords, shift: Shift, at: Len) -> Result<Heights, Fault>
    ensures { result ≡ far_unless
        (r_lengths false words.now.r shift at ++ z_lengths false words.now.r words.now.z shift at)
        (heights_of false words.now shift at) }
{
    let r = match words.r {
        None => None,
        Some(word) => Some(shift.to_machine(word)?),
    };
    let z = match words.z {
        None => None,
        Some(word) => Some(shift.to_machine(word)?),
    };
    Ok(Heights { r, z })
}

/// R and Z in machine coordinates.
pub(crate) fn heights_of(words: &KeptWords, context: &CycleContext) -> Result<Heights, Fault>
    ensures { result ≡ far_unless (height_lengths words.now context.now)
        (heights_of context.now.is_incremental words.now (shift_z context.now.offsets) context.now.point.z) }
{
    let shift = context.offsets.z();
    if context.is_incremental {
        heights_from(words, shift, context.point.z)
    } else {
        heights_at(words, shift, context.point.z)
    }
}

impl OptionalLengths {
    /// All lengths, if R and Z are there.
    pub fn lengths(&self) -> Option<Lengths>
        ensures { result ≡ lengths_in self.now }
    {
        match self.heights.r {
            None => None,
            Some(r) => match self.heights.z {
                None => None,
                Some(z) => Some(Lengths {
                    x: self.x,
                    y: self.y,
                    r,
                    z,
                }),
            },
        }
    }
}

/// All lengths of a cycle's words.
pub(crate) fn optional_lengths_of(
    words: &CycleWords,
    in_force: &KeptWords,
    context: &CycleContext,
) -> Result<OptionalLengths, Fault>
    requires { 1 ≤ words.now.repeats }
    ensures found { result ≡ far_unless (lengths words.now in_force.now context.now)
        (optional_lengths_of words.now in_force.now context.now) }
    ensures x { IfOk result (λ found. IsCount (coordinate found.x words.now.repeats)) }
    ensures y { IfOk result (λ found. IsCount (coordinate found.y words.now.repeats)) }
{
    let is_incremental = context.is_incremental;
    let repeats = words.repeats;
    let x = match hole_axis_of(
        is_incremental,
        words.x,
        context.offsets.x(),
        context.point.x,
        repeats,
    ) {
        Ok(hole_axis) => hole_axis,
        Err(fault) => return Err(fault),
    };
    let y = match hole_axis_of(
        is_incremental,
        words.y,
        context.offsets.y(),
        context.point.y,
        repeats,
    ) {
        Ok(hole_axis) => hole_axis,
        Err(fault) => return Err(fault),
    };
    match heights_of(in_force, context) {
        Ok(heights) => Ok(OptionalLengths { x, y, heights }),
        Err(fault) => Err(fault),
    }
}
