//! The undefined actions.

/// An action from which on a program has no meaning (C90 3.16).
#[derive(Clone, Copy, PartialEq, Eq, Debug)]
pub enum Action {
    /// Division or remainder by zero (C90 6.3.5).
    DivisionByZero,
    /// A shift by a count that is negative or not below the width (C90 6.3.7).
    ShiftCount,
    /// Reading a value of which a bit is unset (C90 6.5.7).
    UnsetBit,
    /// Access outside a live object, or through a null pointer (C90 6.3.3.2).
    OutsideObject,
    /// Order or difference of pointers into different objects, or a difference of more than 32,767 bytes (C90 6.3.6, 6.3.8).
    PointersApart,
    /// Writing a string literal or a const object (C90 6.1.4, 6.5.3).
    ReadOnly,
    /// Pointer arithmetic, or the place of a member, that leaves the range from 0 to the object's size (C90 6.3.6).
    OffsetOutside,
    /// Use of the value of an integer made from a pointer or from some pieces of one, or of a pointer made from a nonzero
    /// integer or from mixed pieces (C90 6.3.4).
    UnknownValue,
    /// Equality between a pointer to an object's end and a pointer into another object, or between a place in an empty block
    /// of further arguments and a place in another block (C90 6.3.9).
    EndOfObject,
    /// A call of a function whose type is not compatible with the call (C90 6.3.2.2).
    CalleeType,
    /// Use of the result of a function that returned none (C90 6.6.6.4).
    NoResult,
    /// A library function with an argument that does not point to what it needs, or a copy between overlapping areas
    /// (C90 7.1.7, 7.11.2).
    LibraryArgument,
    /// Assignment between structures or unions that overlap in part (C90 6.3.16.1).
    PartialOverlap,
    /// A call of a function that has an object with one place for the whole run, while a call of it is active.
    FixedAgain,
    /// Use of a pointer to an object whose life has ended (C90 6.1.2.4).
    EndedObject,
}
