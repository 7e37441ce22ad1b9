//! The lines of comparisons of words and long words, with sign or without, and of bytes do the work of these, where the lines of their sides do that of the sides.
#![tactic(auto)]

mod laws;

pub use laws::{
    bytes_behind_settle, bytes_settle, chars_are_bytes, chars_are_read, chars_are_read_behind,
    constants_are_read, constants_are_read_behind, conversions_keep_bytes, conversions_keep_lows,
    held_bytes_settle, held_pointers_settle, held_words_settle, longs_behind_settle, longs_settle,
    low_conversion_lines_are, low_operands_do, low_operator_lines_are, null_orders_behind_settle,
    null_orders_settle, pointers_behind_settle, pointers_settle, raised_bytes_behind_settle,
    raised_bytes_settle, raised_longs_behind_settle, raised_longs_settle,
    raised_words_behind_settle, raised_words_settle, read_bytes_come, reads_are_converted,
    reads_behind_are_converted, stacked_pointers_settle, values_are_low, words_behind_settle,
    words_settle,
};
