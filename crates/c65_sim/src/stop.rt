// Why a run stands still.
#[derive(Clone, Copy, Debug, PartialEq, Eq)]
pub enum Stop {
    /// The hook `exit`, with the status.
    Exit(u8),
    /// The budget is used up, or the count of rows stands at its greatest value.
    Limit,
    /// The next row would push a byte while S is 0.
    HardStack,
    /// The byte at pc has no row.
    Illegal,
    ReadFault,
    WriteFault,
}
