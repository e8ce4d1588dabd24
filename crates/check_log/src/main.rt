// Checks a log. Its stored trace is the week at the depot, and its log our own run's.
#![tactic(auto)]

fn main(rt: HostRuntime) {
    log_console::check(&rt, &rt.stderr());
}
