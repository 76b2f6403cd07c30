//! The standard settings.
use ng_canon::{Axis, Feed, Geometry, Rate};
use ng_num::Len;
use ng_settings::Settings;

/// A length of whole nanometres, 0 if it is out of range.
fn nm(count: i64) -> Len {
    Len::of_nm(count as i128).unwrap_or_default()
}

/// An axis within its limits.
fn axis(step_nm: u32, low_nm: i64, high_nm: i64) -> Option<Axis> {
    Axis::new(step_nm, nm(low_nm), nm(high_nm))
}

/// The default machine, written out in numbers.
fn default_machine() -> Option<Geometry> {
    let axis = axis(1_000, -1_000_000_000, 1_000_000_000)?;
    Geometry::new(axis, axis, axis, Rate::of(Feed::of(nm(6_000_000_000)))?, 50)
}

/// A dry run shows the travel and the tools of the default settings, but a run always takes its settings from a file:
/// so no text shows their steps, their traverse rate and their least period.
#[test]
fn the_default_settings_have_the_default_machine(rt: HostRuntime) {
    let machine = Some(Settings::standard().geometry);
    assert!(rt; machine == default_machine());
}
