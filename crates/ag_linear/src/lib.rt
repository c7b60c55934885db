//! Values of constants, and rows: streams times factors, and a constant.
//!
//! It promises that each operator answers the exact value or row where its numbers have 128 bits, and tells
//! whether the exact one passes its limit. Streams are numbers that the caller gives. Start at `plus` and `binary_value`, and at
//! specs/Rows.antt and Values.antt.
#![tactic(auto)]

mod rows;
mod value;

pub use rows::{Kept, Linear, comparison_passes, keeps_limits, minus, plus, times};
pub use value::{
    Factor, Value, Valued, binary_value, choice_value, literal_value, passes_limit, unary_value,
};
