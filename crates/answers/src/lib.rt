// What a command answers: the kinds that only show something, and the zeros behind what is named. The contracts cite the
// definitions of machine, and what a function takes for granted those of specs/: each kind's function leaves the outcome of its
// effect, on the box whose last time is the command's.
#![tactic(auto)]

pub mod shows;
pub mod tail;
