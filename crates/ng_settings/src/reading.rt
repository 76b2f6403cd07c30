//! Settings read from a text.
ghost use Rattle.std.specs.Prelude.{◌≡◌, MatchResult};
ghost use Rattle.toml.specs.View.{table_view};
ghost use Rattle.ng_settings.specs.Numbers.{numbers_in};
ghost use Rattle.ng_settings.specs.Given.{numbers_set};
ghost use Rattle.ng_num.specs.Causes.{NoneHolds, IsFirstFault};
ghost use Rattle.ng_settings.specs.Reading.{faults, AreSettings, IsRefused};

use crate::key_values::{find, has_unknown_key};
use crate::making::tools_of;
use crate::standard::Settings;
use ng_num::Fault;
use std::alloc::Global;
use toml::Table;

/// The settings of a table, or the first of S2 to S6 whose cause holds.
fn settings_of(table: &Table) -> Result<Settings, Fault>
    ensures { MatchResult result
        (λ settings. NoneHolds (faults (table_view table.now))
        × (numbers_set settings ≡ numbers_in (table_view table.now)))
        (λ fault. IsFirstFault (faults (table_view table.now)) fault) }
{
    let found = match find(table) {
        Some(found) => found,
        None => return Err(Fault::MissingKey),
    };
    if has_unknown_key(table) {
        return Err(Fault::UnknownKey);
    }
    let given = match found.given() {
        Some(given) => given,
        None => return Err(Fault::WrongType),
    };
    if given.is_beyond_limits() {
        return Err(Fault::OutOfLimits);
    }
    match tools_of(given.tools) {
        Some(tools) => Ok(Settings {
            geometry: given.geometry(),
            tools,
        }),
        None => Err(Fault::TooManyTools),
    }
}

/// The settings of a TOML text (own). S1 if it isn't TOML, M1 if memory runs out; otherwise the first of S2 to S6 whose
/// cause holds. S2: a key is missing. S3: there is another key. S4: a value has the wrong type. S5: a number is outside
/// its limits. S6: there are more than 128 tool lengths. Each cause is checked for all keys before the next.
pub fn settings(alloc: Global, text: &[u8]) -> Result<Settings, Fault>
    ensures { MatchResult result (AreSettings text.now) (IsRefused text.now) }
{
    match toml::table_from_slice(alloc, text) {
        Ok(table) => settings_of(&table),
        Err(error) => {
            if error.is_memory() {
                Err(Fault::OutOfMemory)
            } else {
                Err(Fault::NotToml)
            }
        }
    }
}
