//! Places that hold a value or none.
ghost use Rattle.std.specs.Prelude.{◌≡◌, None};

/// Empties a place. Nearly always it is empty already, and to write `None` is to write all of it.
#[inline(always)]
pub(crate) fn clear<X: Copy>(place: &mut Option<X>)
    ensures { place.new ≡ None }
{
    if place.is_some() {
        *place = None;
    }
}
