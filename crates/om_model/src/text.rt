//! The output text as bytes: each call adds the text of one thing to the end of a buffer. After want of
//! memory a part of it may be there.

mod answers;
mod entries;
mod numbers;
mod titles;

pub use answers::{push_fault, push_op, push_outcome, push_reply};
pub use entries::{push_board_line, push_entry_line, push_move};
pub use numbers::{push_byte, push_decimal, push_hex, push_site};
pub use titles::{
    first_fault, push_board_title, push_ending, push_head, push_outcome_line, push_pool_title,
    push_script_title,
};
