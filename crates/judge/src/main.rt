// Judges standard input. Its stored trace is the depot week (document 01).
#![tactic(auto)]

fn main(rt: HostRuntime) {
    console::judge(&rt, &rt.stderr());
}
