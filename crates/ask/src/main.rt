// Answers questions about the library's operations: one line for each line of standard input, or one for the arguments. docs/ASK.md has the protocol.
#![tactic(auto)]

mod arguments;
mod help;
mod lines;

fn main(rt: HostRuntime) {
    if arguments::is_there(&rt, 1) {
        arguments::answer(&rt, &mut rt.stdout(), &mut rt.stderr());
    } else {
        let _ = lines::answer_all(&mut rt.stdin(), &mut rt.stdout());
    }
}
