// Lists standard input. Its stored listing is of a depot's bucket: every line is good.
#![tactic(auto)]

fn main(rt: HostRuntime) {
    bucket::list(&rt, &rt.stderr());
}
