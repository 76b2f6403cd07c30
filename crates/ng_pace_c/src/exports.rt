//! What C calls. Each function lends what lies at its pointer to one of `calls`, whose clause it states again.
ghost use Rattle.std.specs.Prelude.{◌≡◌, None};
ghost use Rattle.std.specs.Borrow.{full_share, sem};
ghost use Rattle.std.specs.Ptr.{lies_at, room_at};
ghost use Rattle.ng_pace_c.specs.declared.calls.Handle.{Handle};
ghost use Rattle.ng_pace_c.specs.Calls.{IsAnswered, IsBegun, IsEnd, IsFullSaid, IsPutOrFull, IsReadySaid, IsWanted};
ghost use Rattle.ng_pace_c.specs.Exports.{handle_row, lies_such};

use crate::calls::{Handle, begin, end, is_full, is_ready, next, none, push, wanted};
use crate::shapes::{PaceGiven, PaceLine};
use ng_pace::Limits;
use std::alloc::Global;
use std::mem::size_of;

/// How many bytes a handle takes. They are aligned to 8.
#[unsafe(no_mangle)]
pub extern "C" fn ng_pace_size() -> usize {
    size_of::<Handle>()
}

/// Makes a handle, with no stream, where there is room for it: `ng_pace_size` bytes, aligned to 8.
#[unsafe(no_mangle)]
pub unsafe extern "C" fn ng_pace_make(at: *mut ())
    requires* { sem 𝓛 (room_at handle_row at) }
    ensures* { sem 𝓛 (lies_such handle_row at (λ after. after.stream ≡ None)) }
{
    let handle = none();
    unsafe {
        std::ptr::write(at as *mut Handle, handle);
    }
}

/// Begins a stream at a handle, in the place of the one before, and answers 0; or says why there is none: 1 an axis has
/// less acceleration than 3, 2 one has more than 1,000,000,000, 3 one has a greater rate than that, 4 corners of no
/// pulse, 5 no slack, 6 a slack above 1,000, 7 a percentage that isn't 100 to 200, 8 no capacity, 9 out of memory.
#[unsafe(no_mangle)]
pub unsafe extern "C" fn ng_pace_begin(
    at: *mut (),
    alloc: Global,
    limits: Limits,
    capacity: usize,
) -> u32
    ghost before: { Handle }
    requires* { sem 𝓛 (lies_at handle_row full_share at before) }
    ensures* { sem 𝓛 (lies_such handle_row at (λ after. IsBegun after limits capacity result)) }
{
    begin(
        unsafe { &mut *(at as *mut Handle) },
        alloc,
        limits,
        capacity,
    )
}

/// Whether there is no room for a line.
#[unsafe(no_mangle)]
pub unsafe extern "C" fn ng_pace_is_full(at: *mut ()) -> bool
    ghost before: { Handle }
    requires* { sem 𝓛 (lies_at handle_row full_share at before) }
    ensures* { sem 𝓛 (lies_such handle_row at (λ after. IsFullSaid before after result)) }
{
    is_full(unsafe { &mut *(at as *mut Handle) })
}

/// Takes a line, after all that are known; false, with nothing changed, if there is no room for it.
#[unsafe(no_mangle)]
pub unsafe extern "C" fn ng_pace_push(at: *mut (), line: PaceLine) -> bool
    ghost before: { Handle }
    requires* { sem 𝓛 (lies_at handle_row full_share at before) }
    ensures* { sem 𝓛 (lies_such handle_row at (λ after. IsPutOrFull before after line result)) }
{
    push(unsafe { &mut *(at as *mut Handle) }, line)
}

/// Nothing more is known to come: all that is known may be given out, and comes to rest at its end.
#[unsafe(no_mangle)]
pub unsafe extern "C" fn ng_pace_end(at: *mut ())
    ghost before: { Handle }
    requires* { sem 𝓛 (lies_at handle_row full_share at before) }
    ensures* { sem 𝓛 (lies_such handle_row at (λ after. IsEnd before after)) }
{
    end(unsafe { &mut *(at as *mut Handle) })
}

/// The next line, at no more than this square; 0 is a hold. None is given, with nothing changed, if the limits of none
/// are final, or at rest in a hold.
#[unsafe(no_mangle)]
pub unsafe extern "C" fn ng_pace_next(at: *mut (), wanted: u64) -> PaceGiven
    ghost before: { Handle }
    requires* { sem 𝓛 (lies_at handle_row full_share at before) }
    ensures* { sem 𝓛 (lies_such handle_row at (λ after. IsAnswered before after wanted result)) }
{
    next(unsafe { &mut *(at as *mut Handle) }, wanted)
}

/// The square that is wanted for `ng_pace_next` at so many percent of the controller's rates.
#[unsafe(no_mangle)]
pub unsafe extern "C" fn ng_pace_wanted(at: *mut (), percent: u64) -> u64
    ghost before: { Handle }
    requires* { sem 𝓛 (lies_at handle_row full_share at before) }
    ensures* { sem 𝓛 (lies_such handle_row at (λ after. IsWanted before after percent result)) }
{
    wanted(unsafe { &mut *(at as *mut Handle) }, percent)
}

/// Whether a line can be given out: its limits are final.
#[unsafe(no_mangle)]
pub unsafe extern "C" fn ng_pace_is_ready(at: *mut ()) -> bool
    ghost before: { Handle }
    requires* { sem 𝓛 (lies_at handle_row full_share at before) }
    ensures* { sem 𝓛 (lies_such handle_row at (λ after. IsReadySaid before after result)) }
{
    is_ready(unsafe { &mut *(at as *mut Handle) })
}
