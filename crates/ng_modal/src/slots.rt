//! Places that are filled while words are added.
ghost use Rattle.std.specs.Prelude.{◌≡◌, Some, IsTrue};
ghost use Rattle.std.specs.Option.{is_some};

/// Stores a value in a place. Returns whether there was one.
#[inline(always)]
pub(crate) fn put<X: Copy>(place: &mut Option<X>, value: X) -> bool
    ensures value { place.new ≡ Some value }
    ensures was { result ≡ is_some place.old }
{
    let was = place.is_some();
    *place = Some(value);
    was
}

/// Sets a mark. Returns whether it was set before.
#[inline(always)]
pub(crate) fn mark(place: &mut bool) -> bool
    ensures value { IsTrue place.new }
    ensures was { result ≡ place.old }
{
    let was = *place;
    *place = true;
    was
}
