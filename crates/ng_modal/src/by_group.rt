//! What the words of a line ask for, by modal group.
ghost use Rattle.std.specs.Prelude.{◌≡◌, ◌∷◌, [], List};
ghost use Rattle.ng_modal.specs.declared.codes.GWord.{GWord as TheGWord};
ghost use Rattle.ng_modal.specs.declared.codes.MWord.{MWord as TheMWord};
ghost use Rattle.ng_modal.specs.ByGroup.{g_words, m_words, has_word, has_m_word};

use crate::codes::{GWord, MWord};
use crate::requests::{Coolant, NonModal, StopWord, ToolLength};
use crate::slots::{mark, put};
use ng_canon::{Plane, Spindle};
use ng_num::Unit;
use ng_params::System;
use ng_state::{Distance, FeedMode, Motion, PathMode, Retract};

/// What the G words of a line ask for, by modal group. `None` if no word of the group asks for anything.
#[derive(Clone, Copy)]
pub struct GWords {
    /// Group 0.
    pub non_modal: Option<NonModal>,
    /// Whether there is a word of group 1, including one that is left out.
    pub motion_word: bool,
    /// Group 1: the motion mode that the word sets.
    pub motion: Option<Motion>,
    /// Group 2.
    pub plane: Option<Plane>,
    /// Group 3.
    pub distance: Option<Distance>,
    /// Group 5.
    pub feed_mode: Option<FeedMode>,
    /// Group 6.
    pub unit: Option<Unit>,
    /// Whether there is a word of group 7. In an accepted block it is G40, which does nothing.
    pub compensation: bool,
    /// Group 8.
    pub tool_length: Option<ToolLength>,
    /// Group 10.
    pub retract: Option<Retract>,
    /// Group 12.
    pub system: Option<System>,
    /// Group 13.
    pub path: Option<PathMode>,
}

/// What the M words of a line ask for, by modal group. `None` if no word of the group asks for anything.
#[derive(Clone, Copy)]
pub struct MWords {
    /// Group 4.
    pub stop: Option<StopWord>,
    /// Group 6: M6.
    pub tool_change: bool,
    /// Group 7.
    pub spindle: Option<Spindle>,
    /// Group 8.
    pub coolant: Option<Coolant>,
    /// Group 9: whether the operator's overrides are allowed.
    pub overrides: Option<bool>,
}

impl GWords {
    /// No words.
    #[inline]
    pub(crate) fn nothing() -> GWords
        ensures { result ≡ g_words [] }
    {
        GWords {
            non_modal: None,
            motion_word: false,
            motion: None,
            plane: None,
            distance: None,
            feed_mode: None,
            unit: None,
            compensation: false,
            tool_length: None,
            retract: None,
            system: None,
            path: None,
        }
    }

    /// Adds a word in front of those added before. Returns whether there was one of its group.
    pub(crate) fn take(&mut self, word: GWord) -> bool
        ghost words: { List TheGWord }
        requires { self.old ≡ g_words words }
        ensures taken { self.new ≡ g_words (word ∷ words) }
        ensures was { result ≡ has_word word self.old }
    {
        match word {
            GWord::NonModal(asked) => put(&mut self.non_modal, asked),
            GWord::Motion(motion) => {
                self.motion = Some(motion);
                mark(&mut self.motion_word)
            }
            GWord::LeftOutMotion => {
                self.motion = None;
                mark(&mut self.motion_word)
            }
            GWord::Plane(plane) => put(&mut self.plane, plane),
            GWord::Distance(mode) => put(&mut self.distance, mode),
            GWord::FeedMode(mode) => put(&mut self.feed_mode, mode),
            GWord::Unit(unit) => put(&mut self.unit, unit),
            GWord::NoCompensation | GWord::LeftOutCompensation => mark(&mut self.compensation),
            GWord::ToolLength(asked) => put(&mut self.tool_length, asked),
            GWord::Retract(mode) => put(&mut self.retract, mode),
            GWord::System(system) => put(&mut self.system, system),
            GWord::Path(mode) => put(&mut self.path, mode),
        }
    }
}

impl MWords {
    /// No words.
    #[inline]
    pub(crate) fn nothing() -> MWords
        ensures { result ≡ m_words [] }
    {
        MWords {
            stop: None,
            tool_change: false,
            spindle: None,
            coolant: None,
            overrides: None,
        }
    }

    /// Adds a word in front of those added before. Returns whether there was one of its group.
    pub(crate) fn take(&mut self, word: MWord) -> bool
        ghost words: { List TheMWord }
        requires { self.old ≡ m_words words }
        ensures taken { self.new ≡ m_words (word ∷ words) }
        ensures was { result ≡ has_m_word word self.old }
    {
        match word {
            MWord::Stop(asked) => put(&mut self.stop, asked),
            MWord::ToolChange => mark(&mut self.tool_change),
            MWord::Spindle(spinning) => put(&mut self.spindle, spinning),
            MWord::Coolant(asked) => put(&mut self.coolant, asked),
            MWord::Overrides(allowed) => put(&mut self.overrides, allowed),
        }
    }
}
