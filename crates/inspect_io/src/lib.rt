// The body of the inspection program: a capture on standard input, or those that its arguments name, and a line for each record on standard output. What goes wrong is told on standard error.
#![tactic(auto)]

mod captures;
mod printing;
mod reading;
mod running;
mod turning;

pub use running::run;
