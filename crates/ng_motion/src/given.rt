//! What the table gives.
ghost use Rattle.std.specs.Prelude.{◌≡◌, ◌⊎◌, MatchOption, MatchResult, Option, Some, None, option_map};
ghost use Rattle.toml.specs.Data.{get_member};
ghost use Rattle.toml.specs.View.{table_view, view};
ghost use Rattle.ng_motion.specs.Key.{is_key};
ghost use Rattle.ng_motion.specs.Values.{HasAxes, HasWhole};
ghost use Rattle.ng_motion.specs.Given.{AxesAt, AxesOrZeros, Gives, GivesBefore, IsTableFault, IsUnfit, WholeAt, WholeOr, unknown_key};

use crate::fault::MotionFault;
use crate::key::Key;
use crate::name::KeyName;
use crate::values::{PerAxis, axes_in, whole_in};
use toml::{Table, Value};

/// What `[motion]` gives, in millimetres, steps and percent.
#[derive(Clone, Copy)]
pub(crate) struct Given {
    pub(crate) accel: PerAxis,
    pub(crate) rate: PerAxis,
    pub(crate) start: PerAxis,
    pub(crate) slack: u64,
    pub(crate) most_percent: u64,
}

/// Whether a name is a key.
#[tactic(auto, unfolding(crate::specs::Key::is_key))]
fn is_key(name: &str) -> bool
    ensures { result ≡ is_key name.now }
{
    name == "accel_mm_s2"
        || name == "rate_mm_min"
        || name == "start_mm_min"
        || name == "slack_steps"
        || name == "most_percent"
}

/// The first name of a table that isn't a key.
fn unknown_key(table: &Table) -> Option<KeyName>
    ensures { MatchOption result (unknown_key (table_view table.now) ≡ None)
        (λ name. IsTableFault (table_view table.now) (MotionFault.UnknownKey name)) }
{
    match table.keys().find(|name| !is_key(name.as_str())) {
        Some(name) => Some(KeyName::of(name.as_str().as_bytes())),
        None => None,
    }
}

/// The value under a key.
pub(crate) fn value_at<'a>(table: &'a Table, key: &str) -> Option<&'a Value>
    ensures { option_map (λ value. view value.now) result ≡ get_member key.now (table_view table.now) }
{
    table.get(key)
}

/// The numbers of a key, if it is there.
fn axes_at(table: &Table, key: Key) -> Result<Option<PerAxis>, MotionFault>
    requires { HasAxes key }
    ensures { MatchResult result (AxesAt (table_view table.now) key)
        (λ fault. (fault ≡ MotionFault.OutOfRange key) × IsUnfit (table_view table.now) key) }
{
    match value_at(table, key.name()) {
        Some(value) => match axes_in(value, key) {
            Some(axes) => Ok(Some(axes)),
            None => Err(MotionFault::OutOfRange(key)),
        },
        None => Ok(None),
    }
}

/// The number of a key, if it is there.
fn whole_at(table: &Table, key: Key) -> Result<Option<u64>, MotionFault>
    requires { HasWhole key }
    ensures { MatchResult result (WholeAt (table_view table.now) key)
        (λ fault. (fault ≡ MotionFault.OutOfRange key) × IsUnfit (table_view table.now) key) }
{
    match value_at(table, key.name()) {
        Some(value) => match whole_in(value, key) {
            Some(number) => Ok(Some(number)),
            None => Err(MotionFault::OutOfRange(key)),
        },
        None => Ok(None),
    }
}

/// The numbers of a key, zeros if it isn't there.
fn axes_or_zeros(table: &Table, key: Key) -> Result<PerAxis, MotionFault>
    requires { HasAxes key }
    ensures { MatchResult result (AxesOrZeros (table_view table.now) key)
        (λ fault. (fault ≡ MotionFault.OutOfRange key) × IsUnfit (table_view table.now) key) }
{
    match axes_at(table, key) {
        Ok(Some(axes)) => Ok(axes),
        Ok(None) => Ok(PerAxis { x: 0, y: 0, z: 0 }),
        Err(fault) => Err(fault),
    }
}

/// The number of a key, a default if it isn't there.
fn whole_or(table: &Table, key: Key, default: u64) -> Result<u64, MotionFault>
    requires { HasWhole key }
    ensures { MatchResult result (WholeOr (table_view table.now) key default)
        (λ fault. (fault ≡ MotionFault.OutOfRange key) × IsUnfit (table_view table.now) key) }
{
    match whole_at(table, key) {
        Ok(Some(number)) => Ok(number),
        Ok(None) => Ok(default),
        Err(fault) => Err(fault),
    }
}

/// The acceleration, which has to be there.
fn acceleration(table: &Table) -> Result<PerAxis, MotionFault>
    requires { unknown_key (table_view table.now) ≡ None }
    ensures { MatchResult result (λ axes. AxesAt (table_view table.now) Key.Accel (Some axes))
        (IsTableFault (table_view table.now)) }
{
    match axes_at(table, Key::Accel) {
        Ok(Some(axes)) => Ok(axes),
        Ok(None) => Err(MotionFault::NoAcceleration),
        Err(fault) => Err(fault),
    }
}

/// What the table gives, or its fault.
pub(crate) fn read_given(table: &Table) -> Result<Given, MotionFault>
    ensures { MatchResult result (Gives (table_view table.now)) (IsTableFault (table_view table.now)) }
{
    if let Some(name) = unknown_key(table) {
        return Err(MotionFault::UnknownKey(name));
    }
    let accel = match acceleration(table) {
        Ok(accel) => accel,
        Err(fault) => return Err(fault),
    };
    let rate = match axes_or_zeros(table, Key::Rate) {
        Ok(rate) => rate,
        Err(fault) => return Err(fault),
    };
    let start = match axes_or_zeros(table, Key::Start) {
        Ok(start) => start,
        Err(fault) => return Err(fault),
    };
    let slack = match whole_or(table, Key::Slack, 2) {
        Ok(slack) => slack,
        Err(fault) => return Err(fault),
    };
    match whole_or(table, Key::Most, 100) {
        Ok(most_percent) => Ok(Given {
            accel,
            rate,
            start,
            slack,
            most_percent,
        }),
        Err(fault) => Err(fault),
    }
}
