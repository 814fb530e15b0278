ghost use Rattle.std.specs.Prelude.{◌≡◌};
ghost use Rattle.row_script.specs.Ends.{end_text, status_of};

/// How a run of the program ended.
#[derive(Clone, Copy, Debug, PartialEq, Eq)]
pub enum End {
    /// The input was read to its end.
    Finished,
    /// A line was bad.
    BadLine,
    /// The words name no command, or not all that it needs.
    Usage,
    /// A command was refused, and has said why.
    Refused,
    /// What stands on the disk isn't of a store's form, and it was said where.
    NotStore,
    DiskFault,
    SourceFault,
    SinkFault,
    NoMemory,
}

impl End {
    /// The status that the process ends with.
    pub fn status(self) -> u8
        ensures { result ≡ status_of self }
    {
        match self {
            End::Finished => 0,
            End::BadLine => 1,
            End::Usage => 2,
            End::DiskFault => 3,
            End::SourceFault => 4,
            End::SinkFault => 5,
            End::NoMemory => 6,
            End::NotStore => 7,
            End::Refused => 8,
        }
    }

    /// What is written of it behind the replies: a line, or nothing where the replies say it already or can't be
    /// written.
    pub fn text(self) -> &'static str
        ensures { result.now ≡ end_text self }
    {
        match self {
            End::Usage => "usage: qsr FILE COMMAND\n",
            End::DiskFault => "disk fault\n",
            End::SourceFault => "source fault\n",
            End::NoMemory => "no memory\n",
            End::Finished | End::BadLine | End::Refused | End::NotStore | End::SinkFault => "",
        }
    }
}
