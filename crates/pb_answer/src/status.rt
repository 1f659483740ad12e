//! The exit statuses.
ghost use Rattle.std.specs.Prelude.{◌≡◌};
ghost use Rattle.pb_answer.specs.Statuses.{number_of};

/// What the program answers, as its exit status says.
#[derive(Clone, Copy, Debug, PartialEq, Eq)]
pub enum Status {
    /// A plan was found, also of a made task, or a certificate or a journal is accepted: 0.
    Success,
    /// There is no plan, of the task that was loaded or made: 1.
    NoPlan,
    /// The search, of the task that was loaded or made, used up its budget: 2.
    Stopped,
    /// A certificate or a journal is refused: 3.
    Rejected,
    /// The words are no command line: 64.
    WordsRefused,
    /// The input is refused: 65.
    InputRefused,
    /// Memory ran out: 71.
    OutOfMemory,
    /// The shelf failed: 73.
    ShelfFailed,
    /// The sink failed: 74.
    SinkFailed,
}

impl Status {
    /// The number of the status.
    pub fn number(self) -> u8
        ensures { result ≡ number_of self }
    {
        match self {
            Status::Success => 0,
            Status::NoPlan => 1,
            Status::Stopped => 2,
            Status::Rejected => 3,
            Status::WordsRefused => 64,
            Status::InputRefused => 65,
            Status::OutOfMemory => 71,
            Status::ShelfFailed => 73,
            Status::SinkFailed => 74,
        }
    }
}
