//! All faults, with their texts.
use std::alloc::{AllocError, AllocFailed};

/// Why a line, a device, an event, a setting or a command is refused.
///
/// The variants are in the order in which their causes are checked, except that E2 is checked before E1. Numbers and
/// names are this project's own; docs/LANGUAGE.md lists the causes.
#[derive(Clone, Copy, Debug, PartialEq, Eq)]
pub enum Fault {
    /// The line isn't in the grammar.
    Unreadable,
    /// The line has over 256 bytes.
    LineTooLong,
    /// A value, a length or an offset is out of range.
    OutOfRange,
    /// A parameter index isn't a whole number from 1 to 5399.
    BadIndex,
    /// A divisor is 0, a root's argument is negative, or an exponent isn't a whole number from 0 to 32.
    BadArithmetic,
    /// A letter other than G and M appears twice.
    RepeatedLetter,
    /// A G or M value isn't a code of the language.
    UnknownCode,
    /// A code or a letter that this controller leaves out.
    LeftOutCode,
    /// Two words of one modal group.
    GroupTwice,
    /// More than four M words.
    TooManyM,
    /// A motion word other than G80 on a line with G10, G28, G30 or G92.
    AxisTakenTwice,
    /// X, Y or Z on a line where nothing uses them.
    AxisUnused,
    /// G0 or G1 without X, Y, Z.
    NoAxis,
    /// G92 without X, Y, Z.
    NothingToSet,
    /// G53 when the motion mode after the line isn't G0 or G1.
    BadG53,
    /// R on a line whose motion is an arc.
    RadiusArc,
    /// A word that nothing on the line uses.
    UnusedWord,
    /// F, S, or P of G4 is negative.
    Negative,
    /// T or H isn't a whole slot number from 0 to the number of slots.
    BadSlot,
    /// L of G10 is missing or isn't 2, or L of a cycle isn't whole or is below 1.
    BadL,
    /// P of G10 is missing, or isn't a whole number from 1 to 9.
    BadSystem,
    /// G4 without P.
    NoDwell,
    /// G43 without H.
    NoH,
    /// A cycle outside plane XY.
    CyclePlane,
    /// An arc without an end coordinate in its plane.
    NoEnd,
    /// An arc without a centre offset in its plane.
    NoCentre,
    /// An arc's start and end are at too different distances from the centre.
    RadiiDiffer,
    /// An arc's start or end is at its centre.
    ZeroRadius,
    /// A cycle word without X, Y, Z.
    CycleNoAxis,
    /// A cycle with no Z given or kept.
    NoZ,
    /// A cycle with no R given or kept.
    NoR,
    /// A cycle's R is below its Z.
    RBelowZ,
    /// A cycle under inverse time feed.
    InverseTime,
    /// A cycle's P is negative.
    NegativeP,
    /// G83 with no Q given or kept, or with a Q that isn't above 0.
    BadQ,
    /// G86 while the spindle doesn't turn.
    SpindleStopped,
    /// A feed move without a feed.
    NoFeed,
    /// A point outside the travel.
    OutsideTravel,
    /// The text ended before M2 or M30.
    NoProgramEnd,
    /// The text of a percent program ended before its closing percent sign.
    MissingPercent,
    /// The device failed during the call.
    DeviceFailed,
    /// The device is too small, or has no valid header.
    NotFormatted,
    /// A field on the device is out of its range.
    Damaged,
    /// The call needs an epoch or an entry count beyond its limit.
    CountersUsed,
    /// The program is longer than the device's program area.
    ProgramTooLong,
    /// The controller isn't at rest.
    Busy,
    /// No program is loaded, or none is running.
    NoProgram,
    /// The machine's position isn't known.
    PlaceUnknown,
    /// There is no half-done block.
    NothingHalfDone,
    /// The device failed earlier; power on again.
    Broken,
    /// The seats' lists don't match the history.
    SeatsDisagree,
    /// The settings text isn't TOML.
    NotToml,
    /// A key of the settings is missing.
    MissingKey,
    /// A key that the settings don't know.
    UnknownKey,
    /// A setting of the wrong type.
    WrongType,
    /// A setting is outside its limits.
    OutOfLimits,
    /// More than 128 tool lengths.
    TooManyTools,
    /// A console line that isn't a command.
    BadCommand,
    /// Memory couldn't be allocated.
    OutOfMemory,
}

impl Fault {
    ghost use Rattle.std.specs.Prelude.{◌≡◌};
    ghost use Rattle.ng_num.specs.Fault.{text};

    /// The fault's number, a blank and its name, as `E1 Unreadable`. Source: own.
    pub fn text(self) -> &'static [u8]
        ensures { result.now ≡ text self }
    {
        match self {
            Fault::Unreadable => b"E1 Unreadable",
            Fault::LineTooLong => b"E2 LineTooLong",
            Fault::OutOfRange => b"E3 OutOfRange",
            Fault::BadIndex => b"E4 BadIndex",
            Fault::BadArithmetic => b"E5 BadArithmetic",
            Fault::RepeatedLetter => b"B1 RepeatedLetter",
            Fault::UnknownCode => b"B2 UnknownCode",
            Fault::LeftOutCode => b"B3 LeftOutCode",
            Fault::GroupTwice => b"B4 GroupTwice",
            Fault::TooManyM => b"B5 TooManyM",
            Fault::AxisTakenTwice => b"B6 AxisTakenTwice",
            Fault::AxisUnused => b"B7 AxisUnused",
            Fault::NoAxis => b"B8 NoAxis",
            Fault::NothingToSet => b"B9 NothingToSet",
            Fault::BadG53 => b"B10 BadG53",
            Fault::RadiusArc => b"B11 RadiusArc",
            Fault::UnusedWord => b"B12 UnusedWord",
            Fault::Negative => b"B13 Negative",
            Fault::BadSlot => b"B14 BadSlot",
            Fault::BadL => b"B15 BadL",
            Fault::BadSystem => b"B16 BadSystem",
            Fault::NoDwell => b"B17 NoDwell",
            Fault::NoH => b"B18 NoH",
            Fault::CyclePlane => b"B19 CyclePlane",
            Fault::NoEnd => b"C1 NoEnd",
            Fault::NoCentre => b"C2 NoCentre",
            Fault::RadiiDiffer => b"C3 RadiiDiffer",
            Fault::ZeroRadius => b"C4 ZeroRadius",
            Fault::CycleNoAxis => b"Y1 NoAxis",
            Fault::NoZ => b"Y2 NoZ",
            Fault::NoR => b"Y3 NoR",
            Fault::RBelowZ => b"Y4 RBelowZ",
            Fault::InverseTime => b"Y5 InverseTime",
            Fault::NegativeP => b"Y6 NegativeP",
            Fault::BadQ => b"Y7 BadQ",
            Fault::SpindleStopped => b"Y8 SpindleStopped",
            Fault::NoFeed => b"X1 NoFeed",
            Fault::OutsideTravel => b"X2 OutsideTravel",
            Fault::NoProgramEnd => b"X3 NoProgramEnd",
            Fault::MissingPercent => b"X4 MissingPercent",
            Fault::DeviceFailed => b"J1 DeviceFailed",
            Fault::NotFormatted => b"J2 NotFormatted",
            Fault::Damaged => b"J3 Damaged",
            Fault::CountersUsed => b"J4 CountersUsed",
            Fault::ProgramTooLong => b"J5 ProgramTooLong",
            Fault::Busy => b"K1 Busy",
            Fault::NoProgram => b"K2 NoProgram",
            Fault::PlaceUnknown => b"K3 PlaceUnknown",
            Fault::NothingHalfDone => b"K4 NothingHalfDone",
            Fault::Broken => b"K5 Broken",
            Fault::SeatsDisagree => b"K6 SeatsDisagree",
            Fault::NotToml => b"S1 NotToml",
            Fault::MissingKey => b"S2 MissingKey",
            Fault::UnknownKey => b"S3 UnknownKey",
            Fault::WrongType => b"S4 WrongType",
            Fault::OutOfLimits => b"S5 OutOfLimits",
            Fault::TooManyTools => b"S6 TooManyTools",
            Fault::BadCommand => b"U1 BadCommand",
            Fault::OutOfMemory => b"M1 OutOfMemory",
        }
    }
}

impl From<AllocError> for Fault {
    ghost use Rattle.std.specs.Prelude.{◌≡◌};
    ghost use Rattle.ng_num.specs.declared.fault.Fault.TheVariants.{OutOfMemory};

    ghost from_gives = { λ _ e. e ≡ OutOfMemory };

    fn from(_: AllocError) -> Self {
        Fault::OutOfMemory
    }
}

impl<T: Drop> From<AllocFailed<T>> for Fault {
    ghost use Rattle.std.specs.Prelude.{◌≡◌};
    ghost use Rattle.ng_num.specs.declared.fault.Fault.TheVariants.{OutOfMemory};

    ghost from_gives = { λ _ e. e ≡ OutOfMemory };

    fn from(_: AllocFailed<T>) -> Self {
        Fault::OutOfMemory
    }
}
