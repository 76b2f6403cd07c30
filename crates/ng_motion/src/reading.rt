//! Limits read from a text.
ghost use Rattle.std.specs.Prelude.{◌≡◌, IfNone, IfSome, MatchOption, MatchResult, None, Some, codes};
ghost use Rattle.toml.specs.Data.{Members, get_member};
ghost use Rattle.toml.specs.View.{table_view};
ghost use Rattle.ng_motion.specs.Reading.{AreLimitsOf, GivesAtRoot, HasUnknownTable, IsMotion, IsRefused, IsRootFault};
ghost use Rattle.ng_motion.specs.Reading.{unknown_table};
ghost use Rattle.ng_motion.specs.Table.{is_other, is_table, other_value, table_name};

use crate::fault::MotionFault;
use crate::given::{read_given, value_at};
use crate::name::KeyName;
use crate::steps::limits_of;
use crate::table::{TABLES, TableName};
use ng_canon::Geometry;
use ng_pace::Limits;
use std::alloc::Global;
use toml::Table;

/// Whether a name is that of a table of a machine's file.
fn is_table(name: &str) -> bool
    ensures { result ≡ is_table name.now }
{
    TABLES.iter().any(|table| name == table.name())
}

/// The first name at the top that isn't that of a table of a machine's file.
fn unknown_table(root: &Table) -> Option<KeyName>
    ensures { MatchOption result (unknown_table (table_view root.now) ≡ None) (HasUnknownTable (table_view root.now)) }
{
    match root.keys().find(|name| !is_table(name.as_str())) {
        Some(name) => Some(KeyName::of(name.as_str().as_bytes())),
        None => None,
    }
}

/// Whether the name of a table has another value.
fn is_other(root: &Table, table: TableName) -> bool
    ensures { result ≡ is_other (get_member (table_name table) (table_view root.now)) }
{
    match value_at(root, table.name()) {
        Some(value) => !value.is_table(),
        None => false,
    }
}

/// The first of the tables whose name has another value.
fn other_value(root: &Table) -> Option<TableName>
    ensures { result ≡ other_value (table_view root.now) }
{
    TABLES.iter().find(|table| is_other(root, **table)).copied()
}

/// The table `[motion]`.
fn motion_table(root: &Table) -> Option<&Table>
    ensures found { IfSome result (λ motion. IsMotion (table_view root.now) (table_view motion.now)) }
    ensures none { IfNone result ((motion : Members) → IsMotion (table_view root.now) motion → ⊥) }
{
    match value_at(root, "motion") {
        Some(value) => value.as_table(),
        None => None,
    }
}

/// The limits that the table of a text gives, or its fault.
fn limits_in(root: &Table, machine: &Geometry) -> Result<Limits, MotionFault>
    ensures { MatchResult result (GivesAtRoot (table_view root.now) machine.now) (IsRootFault (table_view root.now) machine.now) }
{
    if let Some(name) = unknown_table(root) {
        return Err(MotionFault::UnknownTable(name));
    }
    if let Some(table) = other_value(root) {
        return Err(MotionFault::NotATable(table));
    }
    let Some(motion) = motion_table(root) else {
        return Err(MotionFault::NoTable);
    };
    match read_given(motion) {
        Ok(given) => limits_of(&given, machine),
        Err(fault) => Err(fault),
    }
}

/// The limits of the motors of a machine, in steps, from a TOML text with a table `[motion]` (own). The machine's steps
/// turn millimetres into steps, rounded down, so that nothing is exceeded.
///
/// Refused, in this order: a text that isn't TOML; a table or a key at its top that is none of the nine tables of a
/// machine's file, of those the first by name; another value than a table under one of these names, of those the first
/// by name; no `[motion]`; a key there that is none of its five, of those the first by name; no `accel_mm_s2`; a value
/// of another type or outside its key's range, the keys in the order of `Key`; an axis that gains less than 3 steps a
/// second, each second, then one that gains more than 1,000,000,000; a rate of less than one step a second.
/// `OutOfMemory` if memory runs out. Without `start_mm_min` or `rate_mm_min` they are 0; `slack_steps` is 2,
/// `most_percent` 100. In the other eight tables nothing is looked at.
pub fn limits(alloc: Global, text: &[u8], machine: &Geometry) -> Result<Limits, MotionFault>
    ensures { MatchResult result (AreLimitsOf text.now machine.now) (IsRefused text.now machine.now) }
{
    match toml::table_from_slice(alloc, text) {
        Ok(root) => limits_in(&root, machine),
        Err(error) => {
            if error.is_memory() {
                Err(MotionFault::OutOfMemory)
            } else {
                Err(MotionFault::NotToml)
            }
        }
    }
}
