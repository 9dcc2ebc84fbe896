// The script program on the tests' scripts, the files of data/, one after the other.
#![tactic(auto)]

use std::fs::File;

fn run_script(rt: &HostRuntime, name: &str) {
    match File::open(rt, name) {
        Ok(mut file) => script_io::run(rt, &mut file),
        Err(error) => {
            let _ = eprintln!(rt; "{name}: {error}");
        }
    }
}

fn main(rt: HostRuntime) {
    for name in [
        "bad_line",
        "edges",
        "empty",
        "kinds",
        "last_line",
        "refusals",
        "restart",
        "updates_63",
        "updates_64",
        "updates_apart",
    ] {
        run_script(&rt, name);
    }
}
