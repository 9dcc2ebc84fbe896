// The script program: it reads a script from standard input and prints its printout on standard output. Beside src/ are document 01's
// example and what it prints.
#![tactic(auto)]

fn main(rt: HostRuntime) {
    script_io::run(&rt, &mut rt.stdin());
}
