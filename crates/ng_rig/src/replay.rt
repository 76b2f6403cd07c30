//! What recorded calls come to: the items handed out, and the image that a stop leaves.
ghost use Rattle.std.specs.Prelude.{◌≡◌, ◌≤◌, ◌<◌, ◌+◌, ℕ, List, length, take, drop, IfOk, slice_index};
ghost use Rattle.ng_rig.specs.Trace.{reads, items};
ghost use Rattle.ng_rig.specs.RecordedCalls.{contents, trace_of_calls, AllWithin, NoSync, IsLastSync, IsWhole};
ghost use Rattle.ng_rig.specs.Stops.{durable_image};

use crate::call::Call;
use ng_canon::Item;
use std::alloc::{AllocError, Allocator};

/// The items handed out by these calls.
pub(crate) fn items_of<A: Allocator + Copy + Drop>(
    alloc: A,
    calls: &[Call],
) -> Result<Vec<Item, A>, AllocError>
    ensures { IfOk result (λ handed. (sectors : List (List ℕ)) → handed.items ≡ items (trace_of_calls sectors calls.now)) }
{
    let mut handed = Vec::new(alloc);
    for call in calls {
        match call {
            Call::Write(_, _) => {}
            Call::Sync => {}
            Call::Hand(item) => handed.push(*item)?,
        }
    }
    Ok(handed)
}

/// The number of calls up to and including the last sync; 0 if there is none.
fn synced_calls(calls: &[Call]) -> usize
    ensures { IsLastSync calls.now result }
{
    let mut synced = 0;
    for (i, call) in calls.iter().enumerate() {
        match call {
            Call::Write(_, _) => {}
            Call::Sync => synced = i + 1,
            Call::Hand(_) => {}
        }
    }
    synced
}

/// Makes the image what a read returns after these calls.
fn replay(image: &mut [[u8; 512]], calls: &[Call])
    requires { AllWithin (length image.old) calls.now }
    ensures whole { IsWhole image.old → IsWhole image.new }
    ensures image { contents image.new ≡ reads (trace_of_calls image.old calls.now) }
{
    for call in calls {
        match call {
            Call::Write(sector, bytes) => image[*sector] = *bytes,
            Call::Sync => {}
            Call::Hand(_) => {}
        }
    }
}

/// The number at a place; 0 past the end.
fn number_at(numbers: &[usize], place: usize) -> usize
    ensures { result ≡ slice_index numbers.now place }
{
    if place < numbers.len() {
        numbers[place]
    } else {
        0
    }
}

/// Makes the image what a stop leaves after these calls, none of which is a sync. `written` counts the writes of each
/// sector and starts at 0.
fn replay_durable(image: &mut [[u8; 512]], written: &mut [usize], calls: &[Call], keep: &[usize])
    requires within { AllWithin (length image.old) calls.now }
    requires size { length written.old ≡ length image.old }
    requires none { (n : ℕ) → slice_index written.old n ≡ 0 }
    requires unsynced { NoSync calls.now }
    ensures whole { IsWhole image.old → IsWhole image.new }
    ensures image { contents image.new ≡ durable_image (trace_of_calls image.old calls.now) keep.now }
{
    for call in calls {
        match call {
            Call::Write(sector, bytes) => {
                let before = written[*sector];
                if before < number_at(keep, *sector) {
                    image[*sector] = *bytes;
                }
                written[*sector] = before + 1;
            }
            Call::Sync => {}
            Call::Hand(_) => {}
        }
    }
}

/// Makes the image what a stop leaves after these calls. `written` counts the writes of each sector and starts at 0.
fn replay_stop(image: &mut [[u8; 512]], written: &mut [usize], calls: &[Call], keep: &[usize])
    requires within { AllWithin (length image.old) calls.now }
    requires size { length written.old ≡ length image.old }
    requires none { (n : ℕ) → slice_index written.old n ≡ 0 }
    ensures whole { IsWhole image.old → IsWhole image.new }
    ensures image { contents image.new ≡ durable_image (trace_of_calls image.old calls.now) keep.now }
{
    let synced = synced_calls(calls);
    replay(image, &calls[..synced]);
    replay_durable(image, written, &calls[synced..], keep);
}

/// The image that a stop leaves after these calls, given how many unsynced writes of each sector are kept.
pub(crate) fn stop_image<A: Allocator + Copy + Drop>(
    alloc: A,
    first: &[[u8; 512]],
    calls: &[Call],
    keep: &[usize],
) -> Result<Vec<[u8; 512], A>, AllocError>
    requires { AllWithin (length first.now) calls.now }
    ensures whole { IfOk result (λ image. IsWhole first.now → IsWhole image.items) }
    ensures size { IfOk result (λ image. length image.items ≡ length first.now) }
    ensures image { IfOk result (λ image. contents image.items ≡ durable_image (trace_of_calls first.now calls.now) keep.now) }
{
    let mut image = Vec::new(alloc);
    image.extend_from_slice(first)?;
    let mut written = Vec::new(alloc);
    written.resize(first.len(), 0)?;
    replay_stop(&mut image, &mut written, calls, keep);
    Ok(image)
}
