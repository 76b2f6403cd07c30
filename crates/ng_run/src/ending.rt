//! How a console ends.
ghost use Rattle.std.specs.Prelude.{◌≡◌, ◌≤◌};
ghost use Rattle.ng_run.specs.Ending.{ended_by, status_of};

/// How a console that wasn't aborted ended (own).
#[derive(Clone, Copy)]
pub enum ConsoleEnd {
    /// The whole text is answered, up to its end or to `quit`.
    Answered,
    /// The whole text is answered, but a call of the device failed.
    DeviceFailed,
    /// Power on was refused, and the line that says so was written.
    NotPowered,
}

/// Why a console is aborted (own).
#[derive(Clone, Copy)]
pub enum ConsoleAbort {
    /// A read failed, or too many reads were needed, or there was no memory for a line of the operator. What was asked
    /// before is answered.
    Input,
    /// A write or a flush failed, or there was no memory for the line of an answer. A beginning of the answer was
    /// written.
    Output,
}

/// The exit status if everything is done (own).
pub const DONE: u8 = 0;

/// The exit status if anything failed (own).
pub const FAILED: u8 = 2;

/// How a console ends if its text is answered.
pub(crate) fn ended_by(is_broken: bool) -> ConsoleEnd
    ensures { result ≡ ended_by is_broken }
{
    if is_broken {
        ConsoleEnd::DeviceFailed
    } else {
        ConsoleEnd::Answered
    }
}

/// The exit status.
pub(crate) fn status(ended: &Result<ConsoleEnd, ConsoleAbort>) -> u8
    ensures value { result ≡ status_of ended.now }
    ensures range { result ≤ 2 }
{
    match ended {
        Ok(ConsoleEnd::Answered) => DONE,
        Ok(ConsoleEnd::DeviceFailed | ConsoleEnd::NotPowered) => FAILED,
        Err(ConsoleAbort::Input | ConsoleAbort::Output) => FAILED,
    }
}
