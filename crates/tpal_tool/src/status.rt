// How a call ends.

ghost use Rattle.std.specs.Prelude.{◌≡◌};
ghost use Rattle.loop_meaning.specs.Answers.{by_stop};
ghost use Rattle.tpal_tool.specs.Statuses.{number_of};

use tp_value::Stop;

/// How a call ends. The number of a variant is the status of the process.
#[derive(Clone, Copy, PartialEq, Eq, Debug)]
pub enum Status {
    /// The run came to its end.
    Done,
    /// The run trapped.
    Trap,
    /// The run was out of fuel.
    OutOfFuel,
    /// The program, or a file, was refused.
    Refused,
    /// There was no memory.
    NoMemory,
    /// A file could not be read.
    ReadFault,
    /// The output could not be written.
    WriteFault,
    /// The words are not of the form that the program takes.
    BadWords,
}

impl Status {
    /// The number of the status, from 0 to 7.
    pub fn number(self) -> u8
        ensures { result ≡ number_of self }
    {
        match self {
            Status::Done => 0,
            Status::Trap => 1,
            Status::OutOfFuel => 2,
            Status::Refused => 3,
            Status::NoMemory => 4,
            Status::ReadFault => 5,
            Status::WriteFault => 6,
            Status::BadWords => 7,
        }
    }
}

/// The status of a run that stopped so.
pub fn status_of(stop: Stop) -> Status
    ensures { result ≡ by_stop Status.Done Status.Trap Status.OutOfFuel stop }
{
    match stop {
        Stop::Done | Stop::Left(_) => Status::Done,
        Stop::Trap(_, _) => Status::Trap,
        Stop::NoFuel => Status::OutOfFuel,
    }
}
