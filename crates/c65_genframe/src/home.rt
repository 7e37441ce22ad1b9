// Where an object of a function stands.

/// Where an object of a function stands.
#[derive(Clone, Copy, Debug, PartialEq, Eq)]
pub enum Home {
    /// At this byte of regbank, counted from 0.
    Bank(u8),
    /// So many bytes above the sp that stands while no value waits.
    Soft(u16),
}

/// A parameter that was passed on the software stack and stands in regbank: its byte of regbank,
/// how far above sp it was passed, and how many bytes it has, 1 or 2.
#[derive(Clone, Copy, Debug, PartialEq, Eq)]
pub struct Moved {
    pub bank: u8,
    pub from: u16,
    pub bytes: u8,
}

/// How the last parameter of a function arrives.
#[derive(Clone, Copy, Debug, PartialEq, Eq)]
pub enum Arrival {
    /// On the software stack, or there is none.
    Passed,
    /// In the registers for so many bytes; the entry pushes them.
    Pushed(u32),
    /// In registers; the entry puts them into this byte of regbank, and so many bytes from there on.
    Kept(u8, u8),
}
