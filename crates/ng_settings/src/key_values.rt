//! The keys of a table, and the value of each.
ghost use Rattle.std.specs.Prelude.{◌≡◌, true, option_map, MatchOption};
ghost use Rattle.toml.specs.Data.{get_member};
ghost use Rattle.toml.specs.View.{view, table_view};
ghost use Rattle.ng_settings.specs.KeyValues.{is_key};
ghost use Rattle.ng_settings.specs.Causes.{has_missing_key, has_unknown_key};
ghost use Rattle.ng_settings.specs.Given.{AreFound};

use toml::{Table, Value};

/// The value of each key.
#[derive(Clone, Copy)]
pub(crate) struct KeyValues<'a> {
    pub(crate) steps: &'a Value,
    pub(crate) lows: &'a Value,
    pub(crate) highs: &'a Value,
    pub(crate) traverse: &'a Value,
    pub(crate) period: &'a Value,
    pub(crate) tools: &'a Value,
}

/// The value under a key.
fn value_at<'a>(table: &'a Table, key: &str) -> Option<&'a Value>
    ensures { option_map (λ value. view value.now) result ≡ get_member key.now (table_view table.now) }
{
    table.get(key)
}

/// The values of the keys. `None` if one is missing.
#[tactic(auto, unfolding(crate::specs::Causes::has_missing_key))]
pub(crate) fn find(table: &Table) -> Option<KeyValues<'_>>
    ensures { MatchOption result (has_missing_key (table_view table.now) ≡ true) (AreFound (table_view table.now)) }
{
    Some(KeyValues {
        steps: value_at(table, "step_nm")?,
        lows: value_at(table, "low_nm")?,
        highs: value_at(table, "high_nm")?,
        traverse: value_at(table, "traverse_nm_per_min")?,
        period: value_at(table, "period_us")?,
        tools: value_at(table, "tools_nm")?,
    })
}

/// Whether a name is a key.
#[tactic(auto, unfolding(crate::specs::KeyValues::is_key))]
fn is_key(name: &str) -> bool
    ensures { result ≡ is_key name.now }
{
    name == "step_nm"
        || name == "low_nm"
        || name == "high_nm"
        || name == "traverse_nm_per_min"
        || name == "period_us"
        || name == "tools_nm"
}

/// Whether a table has a name that isn't a key.
pub(crate) fn has_unknown_key(table: &Table) -> bool
    ensures { result ≡ has_unknown_key (table_view table.now) }
{
    table.keys().any(|name| !is_key(name.as_str()))
}
