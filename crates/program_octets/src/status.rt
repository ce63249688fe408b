//! The program's status.

ghost use Rattle.std.specs.Prelude.{◌≡◌};
ghost use Rattle.program_octets.specs.Statuses.{exit_number};

/// The status with which the program ends.
#[derive(Clone, Copy, Debug, PartialEq, Eq)]
pub enum Status {
    /// The request succeeded, or the checked octets are accepted: exit status 0.
    Accepted,
    /// The checked octets are refused: exit status 1.
    Refused,
    /// The words, memory or a stream failed: exit status 2.
    Fault,
}

impl Status {
    /// Returns the exit status of the program.
    pub fn number(self) -> u8
        ensures { result ≡ exit_number self }
    {
        match self {
            Status::Accepted => 0,
            Status::Refused => 1,
            Status::Fault => 2,
        }
    }
}
