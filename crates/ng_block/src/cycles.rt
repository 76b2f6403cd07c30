//! G81 to G89: the canned cycle that a line asks for, and the words that it keeps (NISTIR 6556, 3.5.16).
ghost use Rattle.std.specs.Prelude.{◌≡◌, Ok, Err, MatchResult};
ghost use Rattle.ng_offsets.specs.Named.{length_by};
ghost use Rattle.ng_block.specs.Cycles.{is_same, own_words, kept_for, kept_beside, kept_in, is_incremental, is_old_z, context_of, cycle_path};

use crate::actions::outputs_at_motion;
use crate::axis_data::{named_on, unit_after};
use crate::ends::ends;
use crate::motion::{feed_mode_after, is_inverse};
use crate::path::Path;
use ng_canon::{Feed, Geometry};
use ng_cycles::{Canned, CycleContext, CycleKind, CycleWords};
use ng_modal::{Block, Movement};
use ng_num::{Fault, Len, Num, Unit, nm_of};
use ng_offsets::{Named, Offsets};
use ng_state::{Distance, KeptWords, ModalState, Modes, Retract};

fn is_same(one: CycleKind, other: CycleKind) -> bool
    ensures { result ≡ is_same one other }
{
    match (one, other) {
        (CycleKind::Drilling, CycleKind::Drilling)
        | (CycleKind::DrillingWithDwell, CycleKind::DrillingWithDwell)
        | (CycleKind::PeckDrilling, CycleKind::PeckDrilling)
        | (CycleKind::Boring, CycleKind::Boring)
        | (CycleKind::BoringWithStop, CycleKind::BoringWithStop)
        | (CycleKind::BoringWithDwell, CycleKind::BoringWithDwell) => true,
        _ => false,
    }
}

/// The length that a word names in a unit, if there is a word.
fn length_by(word: Option<Num>, unit: Unit) -> Result<Option<Len>, Fault>
    ensures { result ≡ length_by word unit }
{
    match word {
        None => Ok(None),
        Some(number) => Ok(Some(nm_of(number, unit)?)),
    }
}

/// R, Z, P and Q of a line: lengths in the unit after it, and a time.
fn own_words(block: &Block, modes: &Modes) -> Result<KeptWords, Fault>
    ensures { result ≡ own_words block.now modes.now }
{
    let values = &block.values;
    let unit = unit_after(block, modes);
    let r = length_by(values.r(), unit)?;
    let z = length_by(values.z(), unit)?;
    let q = length_by(values.q(), unit)?;
    Ok(KeptWords {
        r,
        z,
        p: values.p(),
        q,
    })
}

/// The words that were kept for a cycle. There are none if the motion mode before the line was another.
fn kept_for(kind: CycleKind, modal: &ModalState) -> KeptWords
    ensures { result ≡ kept_for kind modal.now }
{
    match Movement::of(modal.modes.motion) {
        Some(Movement::Cycle(before)) => if is_same(kind, before) {
            modal.kept
        } else {
            KeptWords::none()
        },
        Some(Movement::Straight(_)) | Some(Movement::Arc(_)) | None => KeptWords::none(),
    }
}

/// Stores the words kept after a line that has no cycle: another motion, G80 and the program's end drop those that were
/// kept.
#[inline(always)]
pub(crate) fn put_kept_beside(block: &Block, modal: &ModalState, place: &mut KeptWords)
    ensures { place.new ≡ kept_beside block.now modal.now }
{
    if block.g.motion.is_some() || ends(block.m.stop) {
        *place = KeptWords::none();
    } else {
        *place = modal.kept;
    }
}

/// The words kept after a cycle's line: its own and, for those that the line doesn't have, the words that were kept for
/// it. The program's end drops them. E3 if one of its own lengths is out of range.
fn kept_in(kind: CycleKind, block: &Block, modal: &ModalState) -> Result<KeptWords, Fault>
    ensures { result ≡ kept_in kind block.now modal.now }
{
    let own = own_words(block, &modal.modes)?;
    if ends(block.m.stop) {
        Ok(KeptWords::none())
    } else {
        Ok(own.over(&kept_for(kind, modal)))
    }
}

/// Stores the words kept after a cycle's line, with the same fault. It isn't inlined, so that other lines don't pay for
/// its local variables.
#[inline(never)]
pub(crate) fn put_kept_in(
    kind: CycleKind,
    block: &Block,
    modal: &ModalState,
    place: &mut KeptWords,
) -> Result<(), Fault>
    ensures { MatchResult result
        (λ _. kept_in kind block.now modal.now ≡ Ok place.new)
        (λ fault. kept_in kind block.now modal.now ≡ Err fault) }
{
    match kept_in(kind, block, modal) {
        Ok(kept) => {
            *place = kept;
            Ok(())
        }
        Err(fault) => Err(fault),
    }
}

fn is_incremental(distance: Distance) -> bool
    ensures { result ≡ is_incremental distance }
{
    match distance {
        Distance::Absolute => false,
        Distance::Incremental => true,
    }
}

fn is_old_z(retract: Retract) -> bool
    ensures { result ≡ is_old_z retract }
{
    match retract {
        Retract::OldZ => true,
        Retract::ToR => false,
    }
}

/// The state in which a cycle is executed: the offsets, the feed, the modes and the outputs after the line's other
/// words.
fn context_of(
    block: &Block,
    modal: &ModalState,
    offsets: &Offsets,
    feed_per_min: Feed,
    kept: KeptWords,
) -> CycleContext
    ensures { result ≡ context_of block.now modal.now offsets.now feed_per_min kept }
{
    let modes = &modal.modes;
    let feed_mode = feed_mode_after(block, modes);
    CycleContext {
        point: modal.point,
        offsets: *offsets,
        is_incremental: is_incremental(block.g.distance.unwrap_or(modes.distance)),
        keeps_old_z: is_old_z(block.g.retract.unwrap_or(modes.retract)),
        is_inverse_time: is_inverse(feed_mode),
        feed_per_min,
        outputs: outputs_at_motion(block, feed_mode, &modal.outputs),
        kept,
    }
}

/// The path of a line's canned cycle, under offsets and with the feed after the line. E3 if a computed length is out of
/// range, else the first of Y1 to Y8, X1 and X2. The extreme coordinates decide: neither repeats nor pecks are walked.
#[inline(never)]
#[tactic(auto, unfolding(crate::specs::Cycles::cycle_path))]
pub(crate) fn cycle_path(
    kind: CycleKind,
    block: &Block,
    modal: &ModalState,
    offsets: &Offsets,
    feed_per_min: Feed,
    geometry: &Geometry,
) -> Result<Path, Fault>
    ensures { result ≡ cycle_path kind block.now modal.now offsets.now feed_per_min geometry.now }
{
    let own = own_words(block, &modal.modes)?;
    let Named { x, y, .. } = named_on(block, &modal.modes)?;
    let words = CycleWords {
        kind,
        x,
        y,
        own,
        repeats: block.repeats(),
    };
    let kept = kept_for(kind, modal);
    let context = context_of(block, modal, offsets, feed_per_min, kept);
    let canned = Canned::of(&words, &context, geometry)?;
    Ok(Path::Cycle(canned))
}
