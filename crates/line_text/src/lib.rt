//! Lines, fields and decimal numbers of text that comes in pieces.
//!
//! A line of a text is what stands before an LF, or what stands after the last LF where that isn't empty. A field
//! of a line is a longest run of bytes other than space and tab. A number is one or more ASCII digits.
#![tactic(auto)]

mod fields;
mod foreign;
mod http;
mod limits;
mod lines;
mod numerals;

pub use fields::{behind_byte, field, first_byte, next_field};
pub use limits::{LineFault, LineLimits, Request};
pub use lines::{Lines, MAX_HELD, MAX_LINE};
pub use numerals::{Numeral, decimal, next_in, next_number, put_decimal};
