//! The canonical text of commands. If the text can't grow, it is left as it was.
ghost use Rattle.std.specs.Prelude.{◌≡◌, ◌++◌, OnOk, OnErr, codes};
ghost use Rattle.std.specs.Fmt.{decimal};
ghost use Rattle.ng_num.specs.Printing.{number_text, point_text};
ghost use Rattle.ng_canon.specs.Printing.{canonical, canonical_text, command_text, plane_text, round_text, turn_text, unit_text, StaysWithin};

use crate::command::{ArcFeed, Canon, CanonicalCommand};
use crate::plane::{ArcDirection, Plane};
use ng_num::{Len, Num, Point, Unit, print_length, print_number, print_point, print_whole};
use std::alloc::{AllocError, Allocator};

/// Appends a command with a number.
fn push_number<A: Allocator + Copy + Drop>(
    text: &mut Vec<u8, A>,
    name: &[u8],
    number: Num,
) -> Result<(), AllocError>
    ensures ok { OnOk result (text.new.items ≡ text.old.items ++ (name.now ++ number_text number ++ codes ")\n")) }
    ensures err { OnErr result (StaysWithin text.old.items text.new.items) }
{
    text.extend_from_slice(name)?;
    print_number(text, number, *b")\n")
}

/// Appends a command with a point.
fn push_point<A: Allocator + Copy + Drop>(
    text: &mut Vec<u8, A>,
    name: &[u8],
    point: Point,
) -> Result<(), AllocError>
    ensures ok { OnOk result (text.new.items ≡ text.old.items ++ (name.now ++ point_text point ++ codes ")\n")) }
    ensures err { OnErr result (StaysWithin text.old.items text.new.items) }
{
    text.extend_from_slice(name)?;
    print_point(text, point, *b")\n")
}

/// Appends a command with a length.
fn push_offset<A: Allocator + Copy + Drop>(
    text: &mut Vec<u8, A>,
    name: &[u8],
    offset: Len,
) -> Result<(), AllocError>
    ensures ok { OnOk result (text.new.items ≡ text.old.items ++ (name.now ++ number_text offset ++ codes ")\n")) }
    ensures err { OnErr result (StaysWithin text.old.items text.new.items) }
{
    text.extend_from_slice(name)?;
    print_length(text, offset, *b")\n")
}

/// Appends a command with a slot.
fn push_slot<A: Allocator + Copy + Drop>(
    text: &mut Vec<u8, A>,
    name: &[u8],
    slot: u8,
) -> Result<(), AllocError>
    ensures ok { OnOk result (text.new.items ≡ text.old.items ++ (name.now ++ decimal slot ++ codes ")\n")) }
    ensures err { OnErr result (StaysWithin text.old.items text.new.items) }
{
    text.extend_from_slice(name)?;
    print_whole(text, slot as u64)?;
    text.extend_from_slice(b")\n")
}

/// Appends the command that selects a plane.
fn push_plane<A: Allocator + Copy + Drop>(
    text: &mut Vec<u8, A>,
    plane: Plane,
) -> Result<(), AllocError>
    ensures ok { OnOk result (text.new.items ≡ text.old.items ++ (codes "SELECT_PLANE(" ++ plane_text plane ++ codes ")\n")) }
    ensures err { OnErr result (StaysWithin text.old.items text.new.items) }
{
    match plane {
        Plane::Xy => text.extend_from_slice(b"SELECT_PLANE(XY)\n"),
        Plane::Xz => text.extend_from_slice(b"SELECT_PLANE(XZ)\n"),
        Plane::Yz => text.extend_from_slice(b"SELECT_PLANE(YZ)\n"),
    }
}

/// Appends the command that sets the unit.
fn push_unit<A: Allocator + Copy + Drop>(
    text: &mut Vec<u8, A>,
    unit: Unit,
) -> Result<(), AllocError>
    ensures ok { OnOk result (text.new.items ≡ text.old.items ++ (codes "USE_LENGTH_UNITS(" ++ unit_text unit ++ codes ")\n")) }
    ensures err { OnErr result (StaysWithin text.old.items text.new.items) }
{
    match unit {
        Unit::Inches => text.extend_from_slice(b"USE_LENGTH_UNITS(INCHES)\n"),
        Unit::Millimetres => text.extend_from_slice(b"USE_LENGTH_UNITS(MM)\n"),
    }
}

/// Appends an arc's direction and the end of its line.
fn push_turn<A: Allocator + Copy + Drop>(
    text: &mut Vec<u8, A>,
    turn: ArcDirection,
) -> Result<(), AllocError>
    ensures ok { OnOk result (text.new.items ≡ text.old.items ++ (turn_text turn ++ codes ")\n")) }
    ensures err { OnErr result (text.new.items ≡ text.old.items) }
{
    match turn {
        ArcDirection::Clockwise => text.extend_from_slice(b"CW)\n"),
        ArcDirection::Counterclockwise => text.extend_from_slice(b"CCW)\n"),
    }
}

/// Appends an arc's centre, its direction and the end of its line.
fn push_round<A: Allocator + Copy + Drop>(
    text: &mut Vec<u8, A>,
    arc: ArcFeed,
) -> Result<(), AllocError>
    ensures ok { OnOk result (text.new.items ≡ text.old.items ++ (round_text arc ++ codes ")\n")) }
    ensures err { OnErr result (StaysWithin text.old.items text.new.items) }
{
    print_length(text, arc.centre_a, *b", ")?;
    print_length(text, arc.centre_b, *b", ")?;
    push_turn(text, arc.turn)
}

/// Appends an arc.
fn push_arc<A: Allocator + Copy + Drop>(
    text: &mut Vec<u8, A>,
    arc: ArcFeed,
) -> Result<(), AllocError>
    ensures ok { OnOk result
        (text.new.items ≡ text.old.items ++
        (codes "ARC_FEED(" ++ point_text arc.end ++ codes ", " ++ round_text arc ++ codes ")\n")) }
    ensures err { OnErr result (StaysWithin text.old.items text.new.items) }
{
    text.extend_from_slice(b"ARC_FEED(")?;
    print_point(text, arc.end, *b", ")?;
    push_round(text, arc)
}

/// Appends a command with the text of a comment.
fn push_words<A: Allocator + Copy + Drop>(
    text: &mut Vec<u8, A>,
    name: &[u8],
    words: &[u8],
) -> Result<(), AllocError>
    ensures ok { OnOk result (text.new.items ≡ text.old.items ++ (name.now ++ words.now ++ codes ")\n")) }
    ensures err { OnErr result (StaysWithin text.old.items text.new.items) }
{
    text.extend_from_slice(name)?;
    text.extend_from_slice(words)?;
    text.extend_from_slice(b")\n")
}

/// Appends a command whose arguments are numbers.
#[tactic(auto, unfolding(crate::specs::Printing::command_text))]
fn push_command<A: Allocator + Copy + Drop>(
    text: &mut Vec<u8, A>,
    command: &CanonicalCommand,
) -> Result<(), AllocError>
    ensures ok { OnOk result (text.new.items ≡ text.old.items ++ command_text command.now) }
    ensures err { OnErr result (StaysWithin text.old.items text.new.items) }
{
    match *command {
        CanonicalCommand::FeedRate(feed) => push_offset(text, b"SET_FEED_RATE(", feed.per_min()),
        CanonicalCommand::InverseTime(number) => push_number(text, b"INVERSE_TIME(", number),
        CanonicalCommand::SpindleSpeed(speed) => push_number(text, b"SET_SPINDLE_SPEED(", speed),
        CanonicalCommand::SelectTool(slot) => push_slot(text, b"SELECT_TOOL(", slot),
        CanonicalCommand::ChangeTool(slot) => push_slot(text, b"CHANGE_TOOL(", slot),
        CanonicalCommand::StartSpindleClockwise => text.extend_from_slice(
            b"START_SPINDLE_CLOCKWISE()\n",
        ),
        CanonicalCommand::StartSpindleCounterclockwise => {
            text.extend_from_slice(b"START_SPINDLE_COUNTERCLOCKWISE()\n")
        }
        CanonicalCommand::StopSpindle => text.extend_from_slice(b"STOP_SPINDLE_TURNING()\n"),
        CanonicalCommand::MistOn => text.extend_from_slice(b"MIST_ON()\n"),
        CanonicalCommand::MistOff => text.extend_from_slice(b"MIST_OFF()\n"),
        CanonicalCommand::FloodOn => text.extend_from_slice(b"FLOOD_ON()\n"),
        CanonicalCommand::FloodOff => text.extend_from_slice(b"FLOOD_OFF()\n"),
        CanonicalCommand::Dwell(seconds) => push_number(text, b"DWELL(", seconds),
        CanonicalCommand::SelectPlane(plane) => push_plane(text, plane),
        CanonicalCommand::LengthUnits(unit) => push_unit(text, unit),
        CanonicalCommand::ToolLength(offset) => push_offset(
            text,
            b"USE_TOOL_LENGTH_OFFSET(",
            offset,
        ),
        CanonicalCommand::OriginOffsets(point) => push_point(text, b"SET_ORIGIN_OFFSETS(", point),
        CanonicalCommand::Traverse(point) => push_point(text, b"STRAIGHT_TRAVERSE(", point),
        CanonicalCommand::Feed(point) => push_point(text, b"STRAIGHT_FEED(", point),
        CanonicalCommand::ArcFeed(arc) => push_arc(text, arc),
        CanonicalCommand::ProgramStop => text.extend_from_slice(b"PROGRAM_STOP()\n"),
        CanonicalCommand::OptionalStop => text.extend_from_slice(b"OPTIONAL_PROGRAM_STOP()\n"),
        CanonicalCommand::PalletShuttle => text.extend_from_slice(b"PALLET_SHUTTLE()\n"),
        CanonicalCommand::ProgramEnd => text.extend_from_slice(b"PROGRAM_END()\n"),
    }
}

/// Appends a command.
#[tactic(auto, unfolding(crate::specs::Printing::canonical_text))]
fn push_canon<A: Allocator + Copy + Drop>(
    text: &mut Vec<u8, A>,
    canon: &Canon<'_>,
) -> Result<(), AllocError>
    ensures ok { OnOk result (text.new.items ≡ text.old.items ++ canonical_text (canonical canon.now)) }
    ensures err { OnErr result (StaysWithin text.old.items text.new.items) }
{
    match canon {
        Canon::Comment(words) => push_words(text, b"COMMENT(", words),
        Canon::Message(words) => push_words(text, b"MESSAGE(", words),
        Canon::Command(command) => push_command(text, command),
    }
}

/// Appends a command's canonical text and the end of its line: the name, and the arguments in parentheses. Lengths are
/// in millimetres, in machine coordinates (own, after NISTIR 6556, 4.3). If the text can't grow, it is left as it was.
pub fn print<A: Allocator + Copy + Drop>(
    text: &mut Vec<u8, A>,
    canon: &Canon<'_>,
) -> Result<(), AllocError>
    ensures ok { OnOk result (text.new.items ≡ text.old.items ++ canonical_text (canonical canon.now)) }
    ensures err { OnErr result (text.new.items ≡ text.old.items) }
{
    let before = text.len();
    match push_canon(text, canon) {
        Ok(()) => Ok(()),
        Err(refused) => {
            text.truncate(before);
            Err(refused)
        }
    }
}

/// Appends the canonical text of a command whose arguments are numbers. It does what `print` does, without a copy of
/// the command. If the text can't grow, it is left as it was.
pub fn print_command<A: Allocator + Copy + Drop>(
    text: &mut Vec<u8, A>,
    command: &CanonicalCommand,
) -> Result<(), AllocError>
    ensures ok { OnOk result (text.new.items ≡ text.old.items ++ command_text command.now) }
    ensures err { OnErr result (text.new.items ≡ text.old.items) }
{
    let before = text.len();
    match push_command(text, command) {
        Ok(()) => Ok(()),
        Err(refused) => {
            text.truncate(before);
            Err(refused)
        }
    }
}

/// Appends a command with a point. If the text can't grow, it is left as it was.
#[inline]
fn print_at<A: Allocator + Copy + Drop>(
    text: &mut Vec<u8, A>,
    name: &[u8],
    point: Point,
) -> Result<(), AllocError>
    ensures ok { OnOk result (text.new.items ≡ text.old.items ++ (name.now ++ point_text point ++ codes ")\n")) }
    ensures err { OnErr result (text.new.items ≡ text.old.items) }
{
    let before = text.len();
    match push_point(text, name, point) {
        Ok(()) => Ok(()),
        Err(refused) => {
            text.truncate(before);
            Err(refused)
        }
    }
}

/// Appends the canonical text of a straight traverse to a point. It does what `print_command` does, without building a
/// command. If the text can't grow, it is left as it was.
#[tactic(auto, unfolding(crate::specs::Printing::command_text))]
pub fn print_traverse<A: Allocator + Copy + Drop>(
    text: &mut Vec<u8, A>,
    end: Point,
) -> Result<(), AllocError>
    ensures ok { OnOk result (text.new.items ≡ text.old.items ++ command_text (CanonicalCommand.Traverse end)) }
    ensures err { OnErr result (text.new.items ≡ text.old.items) }
{
    print_at(text, b"STRAIGHT_TRAVERSE(", end)
}

/// Appends the canonical text of a straight feed move to a point. It does what `print_command` does, without building a
/// command. If the text can't grow, it is left as it was.
#[tactic(auto, unfolding(crate::specs::Printing::command_text))]
pub fn print_feed<A: Allocator + Copy + Drop>(
    text: &mut Vec<u8, A>,
    end: Point,
) -> Result<(), AllocError>
    ensures ok { OnOk result (text.new.items ≡ text.old.items ++ command_text (CanonicalCommand.Feed end)) }
    ensures err { OnErr result (text.new.items ≡ text.old.items) }
{
    print_at(text, b"STRAIGHT_FEED(", end)
}
