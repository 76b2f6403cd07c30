//! The whole numbers under each key, and the settings made from them.
ghost use Rattle.std.specs.Prelude.{◌≡◌, true, false, pos, MatchOption};
ghost use Rattle.ng_settings.specs.Causes.{is_beyond_limits};
ghost use Rattle.ng_settings.specs.Given.{has_other_type, numbers_found, numbers_given};

use crate::key_values::KeyValues;
use crate::limits::{is_list_beyond, is_single_beyond, is_triple_beyond};
use crate::numbers::{PerAxis, list, single, triple};
use crate::whole::Whole;
use toml::value::Array;

/// The whole numbers under each key.
#[derive(Clone, Copy)]
pub(crate) struct SettingNumbers<'a> {
    pub(crate) steps: PerAxis,
    pub(crate) lows: PerAxis,
    pub(crate) highs: PerAxis,
    pub(crate) traverse: Whole,
    pub(crate) period: Whole,
    pub(crate) tools: &'a Array,
}

impl<'a> KeyValues<'a> {
    /// The whole numbers of the values. `None` if one has the wrong type.
    #[tactic(auto, unfolding(crate::specs::Given::has_other_type))]
    pub(crate) fn given(self) -> Option<SettingNumbers<'a>>
        ensures { MatchOption result (has_other_type self.entry ≡ true)
            (λ given. (has_other_type self.entry ≡ false) × (numbers_found self.entry ≡ numbers_given given)) }
    {
        Some(SettingNumbers {
            steps: triple(self.steps)?,
            lows: triple(self.lows)?,
            highs: triple(self.highs)?,
            traverse: single(self.traverse)?,
            period: single(self.period)?,
            tools: list(self.tools)?,
        })
    }
}

impl<'a> SettingNumbers<'a> {
    /// Whether a number is outside the limits of its key.
    pub(crate) fn is_beyond_limits(&self) -> bool
        ensures { result ≡ is_beyond_limits (numbers_given self.now) }
    {
        is_triple_beyond(self.steps, 10, 1_000_000)
            | is_triple_beyond(self.lows, -10_000_000_000, 0)
            | is_triple_beyond(self.highs, 0, 10_000_000_000)
            | is_single_beyond(self.traverse, 1, 100_000_000_000)
            | is_single_beyond(self.period, 1, 1_000_000)
            | is_list_beyond(self.tools)
    }
}
