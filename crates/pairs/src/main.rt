// Prints the match of a tie file as a pattern file of its pairs, or its refusal.
#![tactic(auto)]

use text_report::Form;

fn main(rt: HostRuntime) {
    text_program::run(
        &mut rt.stdin(),
        Form::Pairs,
        b"pairs: standard input could not be read\n",
        b"pairs: standard output could not be written\n",
    );
}
