// Prints the report of a tie file: its match with the duals, or its refusal.
#![tactic(auto)]

use text_report::Form;

fn main(rt: HostRuntime) {
    text_program::run(
        &mut rt.stdin(),
        Form::Report,
        b"ties: standard input could not be read\n",
        b"ties: standard output could not be written\n",
    );
}
