/// How a run of the host ended. The numbers are the exit statuses of the program.
#[derive(Clone, Copy, Debug, PartialEq, Eq)]
pub enum Status {
    /// The whole output was written.
    Ok = 0,
    /// The input could not be read.
    ReadFault = 1,
    /// The words are no command.
    Usage = 2,
    /// The input was refused, and its line was written.
    Refused = 3,
    /// The output could not be written.
    WriteFault = 4,
    /// There was no memory.
    Memory = 5,
    /// The input is longer than 8,388,608 bytes.
    TooLong = 6,
}
