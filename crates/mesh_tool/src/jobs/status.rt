//! How the program ended.
ghost use Rattle.std.specs.Prelude.{◌≡◌};
ghost use Rattle.mesh_tool.specs.Jobs.Status.{code_of};

/// How the program ended: the whole text was written; the words are no command line; a read or a write failed; the input
/// was refused; the whole listing was written, and a line of it says a refusal; an interface couldn't be attached; all turns were
/// done, and the end didn't come; an allocation failure; the whole text was written, and it says that a trace is none of a run.
#[derive(Clone, Copy)]
pub enum Status {
    Done,
    Words,
    Read,
    Write,
    Refused,
    Packets,
    Attach,
    Turns,
    Memory,
    NotARun,
}

impl Status {
    /// The program's exit status.
    pub fn code(self) -> u8
        ensures { result ≡ code_of self }
    {
        match self {
            Status::Done => 0,
            Status::Words => 1,
            Status::Read => 2,
            Status::Write => 3,
            Status::Refused => 4,
            Status::Packets => 5,
            Status::Attach => 6,
            Status::Turns => 7,
            Status::Memory => 8,
            Status::NotARun => 9,
        }
    }
}
