// Rows that ask what a token or a message is: the seconds left, and the bytes of one message.
#![tactic(auto)]

pub mod message;
pub mod seconds;
