// The box book: parts that are made of boxes, each lent by the caller as an entry of a list.
#![tactic(auto)]

pub mod book;
pub mod entry;
mod reach;
