// A program that reads a file from standard input and prints the text of its match. Nothing is printed for an input
// that was not read to its end, or as far as it counts; standard error says what went wrong.
#![tactic(auto)]

ghost use Rattle.std.specs.Prelude.{◌≡◌, ◌<◌, ◌≤◌, ◌-◌, length, IfSome};
ghost use Rattle.text_answer.specs.Answer.{buffer_length};
ghost use Rattle.text_program.specs.Input.{Moved, input_after};
ghost use Rattle.text_program.specs.Told.{telling, told_of};

use std::io::Read;
use text_report::Form;

// How far the reads have come: the first bytes, with more to read; or all of the input, or as much of it as counts.
#[derive(Clone, Copy)]
enum Input {
    More(usize),
    All(usize),
}

// How far the reads have come when, after `at` bytes, one more read brought `got`, which is none if it failed.
fn after_read(at: usize, got: Option<usize>) -> Option<Input>
    requires at_lt_buffer_length { at < buffer_length }
    requires moved { Moved (buffer_length - at) got }
    ensures { result ≡ input_after at got }
{
    let more = got?;
    if more == 0 {
        return Some(Input::All(at));
    }
    if at + more < text_answer::BUFFER_LENGTH {
        return Some(Input::More(at + more));
    }
    Some(Input::All(at + more))
}

// Reads the input to its end or until the buffer is full, and answers the count of bytes; none if a read fails.
fn read_input(input: &mut impl Read, buffer: &mut [u8]) -> Option<usize>
    requires { length buffer.old ≡ buffer_length }
    ensures { IfSome result (λ count. count ≤ buffer_length) }
{
    let mut at = 0;
    loop {
        let got = input.read(&mut buffer[at..]).ok();
        match after_read(at, got)? {
            Input::More(count) => at = count,
            Input::All(count) => return Some(count),
        }
    }
}

// What is printed for the bytes that were read: the length of a text at the front of the output; none if the input
// could not be read.
fn tell(
    form: Form,
    buffer: &[u8; text_answer::BUFFER_LENGTH],
    input: Option<usize>,
    output: &mut [u8; text_report::OUTPUT_LENGTH],
) -> Option<usize>
    ensures told { telling result output.new ≡ told_of form input buffer.now output.old }
    ensures fits { IfSome result (λ count. count ≤ length output.new) }
{
    let count = input?;
    Some(text_answer::answer(form, buffer, count, output))
}

// The program, with its input, the form of its text and what it says if it cannot read or write: read, tell, write. No
// contract says which bytes a read brings or a write takes, so none says what this does.
pub fn run(input: &mut impl Read, form: Form, unread: &[u8], unwritten: &[u8]) {
    let mut buffer = [0u8; text_answer::BUFFER_LENGTH];
    let mut output = [0u8; text_report::OUTPUT_LENGTH];
    let read = read_input(input, &mut buffer);
    let Some(length) = tell(form, &buffer, read, &mut output) else {
        io::write_all(2, unread);
        return;
    };
    if !io::write_all(1, &output[..length]) {
        io::write_all(2, unwritten);
    }
}
