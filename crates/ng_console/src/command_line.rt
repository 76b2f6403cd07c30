//! The words of the command line, parsed with clap.
ghost use Rattle.std.specs.Prelude.{◌≡◌, IfOk, IfErr, true, is_some, map, codes};
ghost use Rattle.clap.specs.Words.{app_of, first_of, found_of, kind_of, rows_of, takes};
ghost use Rattle.ng_console.specs.Words.{RequestsJob, HasFiles, HasFlag, HasFlags, dry_app, format_app, grow_app, ngc_app, pace_app, run_app, subcommand_name};

use clap::error::ErrorKind;
use clap::{Arg, ArgAction, ArgMatches, Command, Error};
use std::alloc::{AllocError, Global};

/// The version that `ngc --version` prints.
const VERSION: &str = "0.1.0";

/// The text below the program's help: how a job ends.
const ENDINGS: &str =
    "Exit status:\n  0  done: a program ran to its end, a device is fresh or large, an operator's\n     commands are answered, all lines have their times\n  1  dry, pace: a line was refused; the last line printed says which one and why\n  2  the words are wrong, or ask for help or the version; or a file can't be\n     opened or read, the settings or the device are refused, the device, the\n     input or the output fails, or there isn't enough memory\n\nRefused settings, machines and devices print why.\nA file that can't be read prints nothing.";

/// The text below the help of `dry`.
const PROGRAM_ENDINGS: &str =
    "Exit status:\n  0  the program ran to its end\n  1  a line was refused; the last line printed says which one and why\n  2  the words are wrong, or ask for help; or a file can't be read, the settings\n     or the device are refused, the output can't be written, or there isn't enough\n     memory\n\nRefused settings and devices print why. A file that can't be read prints nothing.";

/// The text below the help of `format`.
const DEVICE_ENDINGS: &str =
    "Exit status:\n  0  the device is fresh\n  2  the words are wrong, or ask for help; or the file can't be opened or made, is\n     too short, is a directory, is held by another process, or fails, or there\n     isn't enough memory\n\nA file that can't be opened or made prints nothing; the others print why.";

/// The text below the help of `grow`.
const GROWTH_ENDINGS: &str =
    "What the device holds stays. A large device takes programs of up to 1048576 bytes,\nany other of up to 131072.\n\nExit status:\n  0  the device has 5806 sectors or more\n  2  the words are wrong, or ask for help; or the file can't be opened, is no device,\n     is a directory, is held by another process, or fails\n\nA file that can't be opened prints nothing; the others print why. After a failure,\nor where it was ended, the device is as good as before: grow it again.";

/// The text below the help of `run`: the commands of its console, and how it ends.
const RUN_COMMANDS_AND_ENDINGS: &str =
    "Commands, read from the input, a line each:\n  load N           store the program in the N bytes after this line, at most 131072,\n                   on a large device 1048576\n  start            run the program from its place on\n  hold             hand out nothing more until `continue` or an `mdi` line\n  continue         go on with what was held, or stopped at M0, M1 or M60\n  mdi LINE         do a line of the operator's own\n  reference X Y Z  tell where the machine stands, in machine millimetres\n  resume           go on with a half-done block, from where the machine stands\n  abandon          give a half-done block up; nothing moves\n  tool N LENGTH    put a tool's length into slot N of the tool table, in millimetres\n  optional on|off  stop the program at M1, or don't\n  delete on|off    leave out the lines that begin with a slash, or don't\n  tick N           do up to N steps of the work, 1 to 1000000\n  status           tell where the machine stands and what it does\n  quit             end, as the end of the input does\n\nExit status:\n  0  all commands are answered, up to `quit` or to the end of the input\n  2  the words are wrong, or ask for help; or a file can't be opened or read, the\n     settings or the device are refused, the device is held by another process or\n     failed, the input or the output failed, or there isn't enough memory\n\nA refused command or program line prints why, and the next one is read. Refused\nsettings and devices print why. A file that can't be read prints nothing.";

/// The text below the help of `pace`: what it reads, and how it ends.
const PACE_FILES_AND_ENDINGS: &str =
    "The lines are those of OUT, from the standard input. Each is printed behind the\nnanosecond from the start at which it is due: in order, never sooner than OUT says,\nwith ramps that the motors can follow.\n\nMACHINE is a file in TOML; of it the table [motion] is read:\n  accel_mm_s2   three numbers for X, Y and Z, 1 to 1000000; required\n  rate_mm_min   the most of each axis, 0 to 100000; 0, the default: what OUT asks\n  start_mm_min  a rate at which each motor starts and stops at once, 0 to 100000;\n                default 0\n  slack_steps   how many steps a motor may be off its pulses, 1 to 64; default 2\n  most_percent  the rates that the lines may have, in percent of what OUT says,\n                100 to 200; default 100: the times are for all of it\n\nExit status:\n  0  all lines have their times\n  1  a line is none of OUT, or would be over after more than 584 years; the last\n     line printed says which one; those before it have their times\n  2  the words are wrong, or ask for help; or a file can't be read, the settings or\n     the machine are refused, the input or the output fails, or there isn't enough\n     memory\n\nRefused settings and machines print why. A file that can't be read prints nothing.";

/// What a command line asks for.
#[derive(Clone, Copy, Debug, PartialEq, Eq)]
pub enum Job<'a> {
    /// `ngc dry PROGRAM [--from DEVICE] [--settings FILE] [--block-delete]`: a dry run of a program.
    Dry {
        /// The path of the program's file.
        program: &'a str,
        /// The path of the file of the device that it begins from. Without one it begins in the fresh state.
        from: Option<&'a str>,
        /// The path of the settings file. Without one the default settings are used.
        settings: Option<&'a str>,
        /// Whether lines that begin with a slash are deleted.
        block_delete: bool,
    },
    /// `ngc format DEVICE [--large]`: a device is made fresh, with no program.
    Format {
        /// The path of the device's file.
        device: &'a str,
        /// Whether it has to be a large device.
        large: bool,
    },
    /// `ngc grow DEVICE`: a device is lengthened to a large device.
    Grow {
        /// The path of the device's file.
        device: &'a str,
    },
    /// `ngc run DEVICE SETTINGS OUT`: a controller over a device, which an operator commands.
    Run {
        /// The path of the device's file.
        device: &'a str,
        /// The path of the settings file.
        settings: &'a str,
        /// The path of the file that items are handed out to. They are appended.
        out: &'a str,
    },
    /// `ngc pace SETTINGS MACHINE [--total]`: when each line of OUT is due.
    Pace {
        /// The path of the settings file.
        settings: &'a str,
        /// The path of the file with the table `[motion]`.
        machine: &'a str,
        /// Whether the time of all lines is printed alone.
        total: bool,
    },
}

/// What the words of a command line ask for. The first word is the program's own name, as the system gives it.
///
/// The text of an error says what is wrong with the words, or is the help that they ask for. If the words are a command
/// line of `ngc`, the only error is `ErrorKind::OutOfMemory`. Source: own.
pub fn words<'a>(alloc: Global, words: &'a [&'a str]) -> Result<Job<'a>, Error>
    ensures job { IfOk result (RequestsJob (map (λ s. s.now) words.entry.now)) }
    ensures taken { IfErr result (λ e. takes ngc_app (map (λ s. s.now) words.entry.now) ≡ true → kind_of e ≡ ErrorKind.OutOfMemory) }
{
    let matches = command(alloc)?.try_get_matches_from(words)?;
    if let Some(dry) = matches.subcommand_matches("dry") {
        return Ok(dry_job(dry));
    }
    if let Some(format) = matches.subcommand_matches("format") {
        return Ok(format_job(format));
    }
    if let Some(grow) = matches.subcommand_matches("grow") {
        return Ok(grow_job(grow));
    }
    if let Some(run) = matches.subcommand_matches("run") {
        return Ok(run_job(run));
    }
    match matches.subcommand_matches("pace") {
        Some(pace) => Ok(pace_job(pace)),
        None => unreachable!(),
    }
}

/// The job of the matches of `dry`.
fn dry_job<'a>(matches: &ArgMatches<'a>) -> Job<'a>
    requires program { is_some (first_of (codes "PROGRAM") (rows_of (found_of matches.now))) ≡ true }
    requires flag { HasFlag (codes "block-delete") (rows_of (found_of matches.now)) }
    ensures files { HasFiles (rows_of (found_of matches.now)) result }
    ensures flags { HasFlags (rows_of (found_of matches.now)) result }
    ensures name { subcommand_name result ≡ codes "dry" }
{
    let from = matches.get_str("from");
    let settings = matches.get_str("settings");
    let block_delete = matches.get_flag("block-delete");
    match matches.get_str("PROGRAM") {
        Some(program) => Job::Dry {
            program,
            from,
            settings,
            block_delete,
        },
        None => unreachable!(),
    }
}

/// The job of the matches of `format`.
fn format_job<'a>(matches: &ArgMatches<'a>) -> Job<'a>
    requires device { is_some (first_of (codes "DEVICE") (rows_of (found_of matches.now))) ≡ true }
    requires flag { HasFlag (codes "large") (rows_of (found_of matches.now)) }
    ensures files { HasFiles (rows_of (found_of matches.now)) result }
    ensures flags { HasFlags (rows_of (found_of matches.now)) result }
    ensures name { subcommand_name result ≡ codes "format" }
{
    let large = matches.get_flag("large");
    match matches.get_str("DEVICE") {
        Some(device) => Job::Format { device, large },
        None => unreachable!(),
    }
}

/// The job of the matches of `grow`.
fn grow_job<'a>(matches: &ArgMatches<'a>) -> Job<'a>
    requires { is_some (first_of (codes "DEVICE") (rows_of (found_of matches.now))) ≡ true }
    ensures files { HasFiles (rows_of (found_of matches.now)) result }
    ensures flags { HasFlags (rows_of (found_of matches.now)) result }
    ensures name { subcommand_name result ≡ codes "grow" }
{
    match matches.get_str("DEVICE") {
        Some(device) => Job::Grow { device },
        None => unreachable!(),
    }
}

/// The job of the matches of `run`.
fn run_job<'a>(matches: &ArgMatches<'a>) -> Job<'a>
    requires device { is_some (first_of (codes "DEVICE") (rows_of (found_of matches.now))) ≡ true }
    requires settings { is_some (first_of (codes "SETTINGS") (rows_of (found_of matches.now))) ≡ true }
    requires out { is_some (first_of (codes "OUT") (rows_of (found_of matches.now))) ≡ true }
    ensures files { HasFiles (rows_of (found_of matches.now)) result }
    ensures flags { HasFlags (rows_of (found_of matches.now)) result }
    ensures name { subcommand_name result ≡ codes "run" }
{
    let Some(device) = matches.get_str("DEVICE") else {
        unreachable!()
    };
    let Some(settings) = matches.get_str("SETTINGS") else {
        unreachable!()
    };
    let Some(out) = matches.get_str("OUT") else {
        unreachable!()
    };
    Job::Run {
        device,
        settings,
        out,
    }
}

/// The job of the matches of `pace`.
fn pace_job<'a>(matches: &ArgMatches<'a>) -> Job<'a>
    requires settings { is_some (first_of (codes "SETTINGS") (rows_of (found_of matches.now))) ≡ true }
    requires machine { is_some (first_of (codes "MACHINE") (rows_of (found_of matches.now))) ≡ true }
    requires flag { HasFlag (codes "total") (rows_of (found_of matches.now)) }
    ensures files { HasFiles (rows_of (found_of matches.now)) result }
    ensures flags { HasFlags (rows_of (found_of matches.now)) result }
    ensures name { subcommand_name result ≡ codes "pace" }
{
    let total = matches.get_flag("total");
    let Some(settings) = matches.get_str("SETTINGS") else {
        unreachable!()
    };
    match matches.get_str("MACHINE") {
        Some(machine) => Job::Pace {
            settings,
            machine,
            total,
        },
        None => unreachable!(),
    }
}

/// The command `ngc`, with its subcommands.
fn command<'a>(alloc: Global) -> Result<Command<'a>, AllocError>
    ensures { IfOk result (λ command. app_of command ≡ ngc_app) }
{
    Command::new(alloc, "ngc")
        .about("A controller for three-axis milling machines")
        .version(VERSION)
        .after_help(ENDINGS)
        .subcommand_required(true)
        .arg_required_else_help(true)
        .subcommand(dry_command(alloc)?)?
        .subcommand(format_command(alloc)?)?
        .subcommand(grow_command(alloc)?)?
        .subcommand(run_command(alloc)?)?
        .subcommand(pace_command(alloc)?)
}

/// The subcommand `dry`.
fn dry_command<'a>(alloc: Global) -> Result<Command<'a>, AllocError>
    ensures { IfOk result (λ command. app_of command ≡ dry_app) }
{
    let program = Arg::new(alloc, "PROGRAM")
        .help("The file of the program: lines of RS274/NGC that end with M2 or M30")
        .action(ArgAction::Set)
        .required(true);
    let from = Arg::new(alloc, "from")
        .long("from")
        .value_name("DEVICE")
        .help(
            "The file of a device, which is only read: begin as `run` would begin the program there",
        )
        .action(ArgAction::Set);
    let settings = Arg::new(alloc, "settings")
        .long("settings")
        .value_name("FILE")
        .help("The file of the machine's settings, in TOML; without it the default settings hold")
        .action(ArgAction::Set);
    let block_delete = Arg::new(alloc, "block-delete")
        .long("block-delete")
        .help("Leave out the lines that begin with a slash")
        .action(ArgAction::SetTrue);
    Command::new(alloc, "dry")
        .about("Run a program without a machine and print its canonical text")
        .after_help(PROGRAM_ENDINGS)
        .arg(program)?
        .arg(from)?
        .arg(settings)?
        .arg(block_delete)
}

/// The subcommand `format`.
fn format_command<'a>(alloc: Global) -> Result<Command<'a>, AllocError>
    ensures { IfOk result (λ command. app_of command ≡ format_app) }
{
    let device = Arg::new(alloc, "DEVICE")
        .help(
            "The file of the device; it is made where there is none, and overwritten without asking where there is one",
        )
        .required(true)
        .action(ArgAction::Set);
    let large = Arg::new(alloc, "large")
        .long("large")
        .help(
            "Make a large device, of 5806 sectors in place of 1710; a file that is there and has fewer is refused",
        )
        .action(ArgAction::SetTrue);
    Command::new(alloc, "format")
        .about("Make a device fresh: OVERWRITES the file that it is given, whatever it holds")
        .after_help(DEVICE_ENDINGS)
        .arg(device)?
        .arg(large)
}

/// The subcommand `grow`.
fn grow_command<'a>(alloc: Global) -> Result<Command<'a>, AllocError>
    ensures { IfOk result (λ command. app_of command ≡ grow_app) }
{
    let device = Arg::new(alloc, "DEVICE")
        .help("The file of the device, as `format` made it")
        .required(true)
        .action(ArgAction::Set);
    Command::new(alloc, "grow")
        .about("Lengthen a device to the 5806 sectors of a large one; what it holds stays")
        .after_help(GROWTH_ENDINGS)
        .arg(device)
}

/// The subcommand `run`.
fn run_command<'a>(alloc: Global) -> Result<Command<'a>, AllocError>
    ensures { IfOk result (λ command. app_of command ≡ run_app) }
{
    let device = Arg::new(alloc, "DEVICE")
        .help("The file of the device, as `format` made it")
        .required(true)
        .action(ArgAction::Set);
    let settings = Arg::new(alloc, "SETTINGS")
        .help("The file of the machine's settings, in TOML")
        .required(true)
        .action(ArgAction::Set);
    let out = Arg::new(alloc, "OUT")
        .help(
            "The file to which pulses, waits and switches are appended, a line each; it is made where there is none",
        )
        .required(true)
        .action(ArgAction::Set);
    Command::new(alloc, "run")
        .about("Run a machine: read an operator's commands and hand out pulses")
        .after_help(RUN_COMMANDS_AND_ENDINGS)
        .arg(device)?
        .arg(settings)?
        .arg(out)
}

/// The subcommand `pace`.
fn pace_command<'a>(alloc: Global) -> Result<Command<'a>, AllocError>
    ensures { IfOk result (λ command. app_of command ≡ pace_app) }
{
    let settings = Arg::new(alloc, "SETTINGS")
        .help("The file of the machine's settings, in TOML, with the steps of its axes")
        .required(true)
        .action(ArgAction::Set);
    let machine = Arg::new(alloc, "MACHINE")
        .help("The file with the table [motion], in TOML")
        .required(true)
        .action(ArgAction::Set);
    let total = Arg::new(alloc, "total")
        .long("total")
        .help("Print the nanosecond at which the last line is over, alone")
        .action(ArgAction::SetTrue);
    Command::new(alloc, "pace")
        .about("Print when each line of OUT is due, by what the motors can do")
        .after_help(PACE_FILES_AND_ENDINGS)
        .arg(settings)?
        .arg(machine)?
        .arg(total)
}
