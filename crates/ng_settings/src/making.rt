//! The settings, made from whole numbers within their limits.
ghost use Rattle.std.specs.Prelude.{◌≡◌, ◌≤◌, true, false, nat_lt, length, pos, negsuc, MatchOption};
ghost use Rattle.std.specs.List.{filter_map};
ghost use Rattle.toml.specs.Data.{as_integer};
ghost use Rattle.toml.specs.View.{array_view};
ghost use Rattle.ng_offsets.specs.Tools.{IsToolLength};
ghost use Rattle.ng_settings.specs.Numbers.{listed};
ghost use Rattle.ng_settings.specs.Causes.{is_beyond, are_beyond};
ghost use Rattle.ng_settings.specs.Given.{IsAxisOf, IsMachine, IsMachineOf, IsInLimits};

use crate::setting_numbers::SettingNumbers;
use crate::whole::Whole;
use ng_canon::{Axis, Feed, Geometry, Rate};
use ng_num::Len;
use ng_offsets::{SLOTS, Tools};
use toml::value::Array;

/// The length for a number of nanometres.
fn length(nm: Whole) -> Len
    requires { IsInLimits (negsuc 9_999_999_999) (pos 10_000_000_000) nm }
    ensures { result ≡ nm }
{
    Len::of_nm(nm.number() as i128).unwrap()
}

/// The axis with a step and a travel.
fn axis(step: Whole, low: Whole, high: Whole) -> Axis
    requires step { IsInLimits (pos 10) (pos 1_000_000) step }
    requires low { IsInLimits (negsuc 9_999_999_999) (pos 0) low }
    requires high { IsInLimits (pos 0) (pos 10_000_000_000) high }
    ensures { IsAxisOf result step low high }
{
    let low = length(low);
    let high = length(high);
    Axis {
        step_nm: step.number() as u32,
        low,
        high,
    }
}

/// The traverse rate for a number.
fn traverse(nm_per_min: Whole) -> Rate
    requires { IsInLimits (pos 1) (pos 100_000_000_000) nm_per_min }
    ensures { pos result ≡ nm_per_min }
{
    let per_min = Len::of_nm(nm_per_min.number() as i128).unwrap();
    Rate::of(Feed::of(per_min)).unwrap()
}

/// The least period for a number.
fn period(microseconds: Whole) -> u32
    requires { IsInLimits (pos 1) (pos 1_000_000) microseconds }
    ensures value { pos result ≡ microseconds }
    ensures low { 1 ≤ result }
    ensures high { result ≤ 1_000_000 }
{
    microseconds.number() as u32
}

/// The tool length for a number.
fn tool_length(nm: i64) -> Len
    requires { is_beyond (pos 0) (pos 1_000_000_000) nm ≡ false }
    ensures value { result ≡ nm }
    ensures tool { IsToolLength result }
{
    Len::of_nm(nm as i128).unwrap()
}

impl<'a> SettingNumbers<'a> {
    /// The machine, made from numbers within their limits.
    pub(crate) fn geometry(&self) -> Geometry
        requires { IsMachine self.now }
        ensures { IsMachineOf result self.now }
    {
        Geometry {
            x: axis(self.steps.x, self.lows.x, self.highs.x),
            y: axis(self.steps.y, self.lows.y, self.highs.y),
            z: axis(self.steps.z, self.lows.z, self.highs.z),
            traverse: traverse(self.traverse),
            least_period_us: period(self.period),
        }
    }
}

/// The tool table, made from an array's whole numbers, which are within their limits. `None` if there are more than
/// 128.
pub(crate) fn tools_of(lengths: &Array) -> Option<Tools>
    requires { are_beyond (pos 0) (pos 1_000_000_000) (filter_map as_integer (listed (array_view lengths.now))) ≡ false }
    ensures { MatchOption result
        (nat_lt 128 (length (filter_map as_integer (listed (array_view lengths.now)))) ≡ true)
        (λ tools. (nat_lt 128 (length tools) ≡ false) × (filter_map as_integer
        (listed (array_view lengths.now)) ≡ tools)) }
{
    let mut tools = Tools::new();
    for value in lengths {
        if let Some(nm) = value.as_integer() {
            if tools.slots() == SLOTS {
                return None;
            }
            tools.push(tool_length(nm));
        }
    }
    Some(tools)
}
