// Reads a pass text from standard input and writes its list to standard output (the scope, "The pass text and its list"). What is promised of the list is the
// contract of `pass_listing::list`.
#![tactic(auto)]

fn main(rt: HostRuntime) {
    pass_listing::list(&rt, &mut rt.stdin(), &mut rt.stdout());
}
