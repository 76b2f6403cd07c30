//! The codes of the language: what G and M words ask for, by their values.
ghost use Rattle.std.specs.Prelude.{◌≡◌};
ghost use Rattle.std.specs.Option.{option_and_then};
ghost use Rattle.ng_params.specs.Numbers.{system_of};
ghost use Rattle.ng_modal.specs.Codes.{selecting, g_word_of, m_word_of, g_word, m_word};

use crate::requests::{Coolant, NonModal, StopWord, ToolLength};
use ng_canon::{Plane, Spindle};
use ng_num::{Num, Unit};
use ng_params::System;
use ng_state::{Distance, FeedMode, Motion, PathMode, Retract};

/// A G word: its modal group (NISTIR 6556, table 4), and what it asks for in that group.
#[derive(Clone, Copy)]
pub(crate) enum GWord {
    /// Group 0: applies to its line only.
    NonModal(NonModal),
    /// Group 1.
    Motion(Motion),
    /// Group 1: probing, tapping, back boring, boring with manual retraction. This controller leaves them out.
    LeftOutMotion,
    /// Group 2.
    Plane(Plane),
    /// Group 3.
    Distance(Distance),
    /// Group 5.
    FeedMode(FeedMode),
    /// Group 6.
    Unit(Unit),
    /// Group 7: no cutter radius compensation.
    NoCompensation,
    /// Group 7: cutter radius compensation. This controller leaves it out.
    LeftOutCompensation,
    /// Group 8.
    ToolLength(ToolLength),
    /// Group 10.
    Retract(Retract),
    /// Group 12.
    System(System),
    /// Group 13.
    Path(PathMode),
}

/// An M word: its modal group (NISTIR 6556, table 4), and what it asks for in that group.
#[derive(Clone, Copy)]
pub(crate) enum MWord {
    /// Group 4: stopping.
    Stop(StopWord),
    /// Group 6.
    ToolChange,
    /// Group 7.
    Spindle(Spindle),
    /// Group 8.
    Coolant(Coolant),
    /// Group 9: whether the operator's overrides are allowed.
    Overrides(bool),
}

/// The G word that selects the coordinate system with a number.
#[inline]
fn system(number: i64) -> Option<GWord>
    ensures { result ≡ option_and_then selecting (system_of number) }
{
    match System::of(number) {
        Some(system) => Some(GWord::System(system)),
        None => None,
    }
}

/// The G word with a code, given as ten times its value. `None` if there is no such code (NISTIR 6556, table 5).
#[tactic(auto, unfolding(crate::specs::Codes::g_word_of))]
fn g_word_of(tenths: i64) -> Option<GWord>
    ensures { result ≡ g_word_of tenths }
{
    match tenths {
        0 => Some(GWord::Motion(Motion::Traverse)), // G0 3.5.1
        10 => Some(GWord::Motion(Motion::Feed)), // G1 3.5.2
        20 => Some(GWord::Motion(Motion::ClockwiseArc)), // G2 3.5.3
        30 => Some(GWord::Motion(Motion::CounterclockwiseArc)), // G3 3.5.3
        40 => Some(GWord::NonModal(NonModal::Dwell)), // G4 3.5.4
        100 => Some(GWord::NonModal(NonModal::SetOrigin)), // G10 3.5.5
        170 => Some(GWord::Plane(Plane::Xy)), // G17 3.5.6
        180 => Some(GWord::Plane(Plane::Xz)), // G18 3.5.6
        190 => Some(GWord::Plane(Plane::Yz)), // G19 3.5.6
        200 => Some(GWord::Unit(Unit::Inches)), // G20 3.5.7
        210 => Some(GWord::Unit(Unit::Millimetres)), // G21 3.5.7
        280 => Some(GWord::NonModal(NonModal::Home)), // G28 3.5.8
        300 => Some(GWord::NonModal(NonModal::SecondHome)), // G30 3.5.8
        382 => Some(GWord::LeftOutMotion), // G38.2 3.5.9
        400 => Some(GWord::NoCompensation), // G40 3.5.10
        410 => Some(GWord::LeftOutCompensation), // G41 3.5.10
        420 => Some(GWord::LeftOutCompensation), // G42 3.5.10
        430 => Some(GWord::ToolLength(ToolLength::OfSlot)), // G43 3.5.11
        490 => Some(GWord::ToolLength(ToolLength::Zero)), // G49 3.5.11
        530 => Some(GWord::NonModal(NonModal::MachineCoordinates)), // G53 3.5.12
        540 => system(1), // G54 3.5.13
        550 => system(2), // G55 3.5.13
        560 => system(3), // G56 3.5.13
        570 => system(4), // G57 3.5.13
        580 => system(5), // G58 3.5.13
        590 => system(6), // G59 3.5.13
        591 => system(7), // G59.1 3.5.13
        592 => system(8), // G59.2 3.5.13
        593 => system(9), // G59.3 3.5.13
        610 => Some(GWord::Path(PathMode::Exact)), // G61 3.5.14
        611 => Some(GWord::Path(PathMode::ExactStop)), // G61.1 3.5.14
        640 => Some(GWord::Path(PathMode::Continuous)), // G64 3.5.14
        800 => Some(GWord::Motion(Motion::Off)), // G80 3.5.15
        810 => Some(GWord::Motion(Motion::Drilling)), // G81 3.5.16.2
        820 => Some(GWord::Motion(Motion::DrillingWithDwell)), // G82 3.5.16.3
        830 => Some(GWord::Motion(Motion::PeckDrilling)), // G83 3.5.16.4
        840 => Some(GWord::LeftOutMotion), // G84 3.5.16.5
        850 => Some(GWord::Motion(Motion::Boring)), // G85 3.5.16.6
        860 => Some(GWord::Motion(Motion::BoringWithStop)), // G86 3.5.16.7
        870 => Some(GWord::LeftOutMotion), // G87 3.5.16.8
        880 => Some(GWord::LeftOutMotion), // G88 3.5.16.9
        890 => Some(GWord::Motion(Motion::BoringWithDwell)), // G89 3.5.16.10
        900 => Some(GWord::Distance(Distance::Absolute)), // G90 3.5.17
        910 => Some(GWord::Distance(Distance::Incremental)), // G91 3.5.17
        920 => Some(GWord::NonModal(NonModal::SetOffset)), // G92 3.5.18
        921 => Some(GWord::NonModal(NonModal::CancelOffsetAndParameters)), // G92.1 3.5.18
        922 => Some(GWord::NonModal(NonModal::CancelOffset)), // G92.2 3.5.18
        923 => Some(GWord::NonModal(NonModal::RestoreOffset)), // G92.3 3.5.18
        930 => Some(GWord::FeedMode(FeedMode::InverseTime)), // G93 3.5.19
        940 => Some(GWord::FeedMode(FeedMode::PerMinute)), // G94 3.5.19
        980 => Some(GWord::Retract(Retract::OldZ)), // G98 3.5.20
        990 => Some(GWord::Retract(Retract::ToR)), // G99 3.5.20
        _ => None,
    }
}

/// The M word with a number. `None` if there is no such code (NISTIR 6556, table 7).
#[tactic(auto, unfolding(crate::specs::Codes::m_word_of))]
fn m_word_of(number: i64) -> Option<MWord>
    ensures { result ≡ m_word_of number }
{
    match number {
        0 => Some(MWord::Stop(StopWord::Program)), // M0 3.6.1
        1 => Some(MWord::Stop(StopWord::Optional)), // M1 3.6.1
        2 => Some(MWord::Stop(StopWord::End)), // M2 3.6.1
        3 => Some(MWord::Spindle(Spindle::Clockwise)), // M3 3.6.2
        4 => Some(MWord::Spindle(Spindle::Counterclockwise)), // M4 3.6.2
        5 => Some(MWord::Spindle(Spindle::Stopped)), // M5 3.6.2
        6 => Some(MWord::ToolChange), // M6 3.6.3
        7 => Some(MWord::Coolant(Coolant::Mist)), // M7 3.6.4
        8 => Some(MWord::Coolant(Coolant::Flood)), // M8 3.6.4
        9 => Some(MWord::Coolant(Coolant::Off)), // M9 3.6.4
        30 => Some(MWord::Stop(StopWord::EndWithShuttle)), // M30 3.6.1
        48 => Some(MWord::Overrides(true)), // M48 3.6.5
        49 => Some(MWord::Overrides(false)), // M49 3.6.5
        60 => Some(MWord::Stop(StopWord::Shuttle)), // M60 3.6.1
        _ => None,
    }
}

/// What a G word with this value asks for. Ten times the value counts as the whole number that is at most 0.0001 away
/// (own). `None` if the value isn't a code.
#[inline]
#[tactic(auto, unfolding(crate::specs::Codes::g_word))]
pub(crate) fn g_word(value: Num) -> Option<GWord>
    ensures { result ≡ g_word value }
{
    match value.whole_tenths() {
        Some(tenths) => g_word_of(tenths),
        None => None,
    }
}

/// What an M word with this value asks for. The value counts as the whole number that is at most 0.0001 away (own).
/// `None` if it isn't a code.
#[inline]
#[tactic(auto, unfolding(crate::specs::Codes::m_word))]
pub(crate) fn m_word(value: Num) -> Option<MWord>
    ensures { result ≡ m_word value }
{
    match value.whole() {
        Some(number) => m_word_of(number),
        None => None,
    }
}
