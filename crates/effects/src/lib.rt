// What a command stores: the kinds that change a page or let the held one leave. The contracts cite the definitions of machine:
// each kind's function leaves the outcome of its effect, on the box whose last time is the command's.
#![tactic(auto)]

pub mod changes;
pub mod upkeep;
