//! A code written by hand that adds the numbers below a count, by a loop that may be cut before any
//! iteration but its first, and the laws that it owes their sum however it is cut, and with how
//! many promotion points. It stands on `tpal_machine`; tests and benches of what runs codes stand
//! on it. Start with `specs/Sum.antt`. `wrong` has the same code with one fault each, which what it
//! owes refuses.
#![tactic(auto)]

mod code;
pub mod laws;
pub mod wrong;

pub use code::sum_below;
