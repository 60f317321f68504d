//! The status of a run, and the exit status for it.
ghost use Rattle.std.specs.Prelude.{◌≡◌};

/// How a run ended.
#[derive(Clone, Copy, Debug, PartialEq, Eq, Hash)]
pub enum Status {
    /// None of the following.
    Done = 0,
    /// A line of a script, or its end, was refused.
    Refused = 1,
    /// The arguments are not valid.
    Words = 2,
    /// The file is not a valid diagram, or a line in it cannot be read.
    Diagram = 3,
    /// The file could not be read.
    ReadFault = 4,
    /// The output failed. A part of it may have been written.
    WriteFault = 5,
    /// Out of memory. Nothing was written.
    NoMemory = 6,
    /// The file has more bytes than the limit.
    TooLong = 7,
    /// The line of an edge breaks a rule.
    BadLine = 8,
    /// The file is not a certificate, or it does not prove the scene.
    AuditNo = 9,
}

impl Status {
    ghost use Rattle.report_text.specs.Status.{code_of};

    /// The exit status of the program. Takes no memory.
    pub fn code(&self) -> u8
        ensures { result ≡ code_of self.now }
    {
        *self as u8
    }

    /// What to do after a run with this status, in words for people, where there is something to do and memory for it.
    /// No clause says which words.
    pub fn advice(&self) -> Option<&'static str> {
        match *self {
            Status::Done | Status::NoMemory => None,
            Status::Refused => {
                Some("a line of the script was refused; the lines # and preview say which and why")
            }
            Status::Words => Some(
                "check FILE, route FILE FILE [--workers N] [--count], make SEED, preview FILE FILE [--workers N], shared FILE, prove FILE, audit FILE FILE",
            ),
            Status::Diagram => Some("the file is no diagram; reroute-explain says what to change"),
            Status::ReadFault => {
                Some("the file cannot be read: is it there, is it a file, may you read it?")
            }
            Status::WriteFault => {
                Some("the output could not be written; a first part of it may be there")
            }
            Status::TooLong => Some("the file is too long: take out what is no box and no edge"),
            Status::BadLine => Some("a line breaks a rule; reroute route writes legal lines"),
            Status::AuditNo => Some("the certificate does not prove the costs of this diagram"),
        }
    }
}
