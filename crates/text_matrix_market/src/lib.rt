// The tie file, read in one pass.
#![tactic(auto)]

pub mod banner;
mod numbers;
mod stages;
mod text;

ghost use Rattle.std.specs.Prelude.{◌≡◌};
ghost use Rattle.refusal.specs.Number.{numbered};
ghost use Rattle.text_matrix_market.specs.File.{max_entries, reading_at_end, reading_of};
ghost use Rattle.text_matrix_market.specs.inner.Steps.{Lists, lists, state_of, reading_from, Places, stored};
ghost use Rattle.text_matrix_market.specs.inner.Steps.{taken_of};

use crate::banner::Kind;
use crate::stages::Stage;
use refusal::Refusal;

// The file that an input holds: its kind, n and a count of entries.
#[derive(Clone, Copy)]
pub struct File {
    pub kind: Kind,
    pub n: u32,
    pub count: u32,
}

const MAX_INPUT: usize = 32768;

// The answer at the end of the input.
fn conclude(stage: Stage) -> Result<File, Refusal>
    ensures { (l : Lists) → reading_from (numbered result) l ≡ reading_at_end (state_of stage l) }
{
    match stage {
        Stage::Start => Err(Refusal::Banner),
        Stage::Sizing(_) => Err(Refusal::SizeLine),
        Stage::Entering(kind, n, count, read) if read == count => Ok(File { kind, n, count }),
        Stage::Entering(_, _, _, _) => Err(Refusal::EntryCount),
    }
}

// The file that an input holds, or a refusal other than 25. The front of the slices then has the entries that were
// read, for a refused input those before the refused line; after them all is as it was.
pub fn read_file(
    input: &[u8],
    rows: &mut [u32],
    columns: &mut [u32],
    weights: &mut [u64],
) -> Result<File, Refusal>
    requires { Places max_entries (lists rows.old columns.old weights.old) }
    ensures reading { let after = lists rows.new columns.new weights.new in
        reading_from (numbered result) after ≡ reading_of input.now }
    ensures slices { let before = lists rows.old columns.old weights.old in
        let after = lists rows.new columns.new weights.new in
        after ≡ stored 0 (taken_of input.now) before }
{
    if input.len() > MAX_INPUT {
        return Err(Refusal::InputLimit);
    }
    let mut stage = Stage::Start;
    let mut at = 0;
    while at < input.len() {
        let end = text::line_end(input, at);
        stage = stages::next_stage(stage, &input[at..end], rows, columns, weights)?;
        at = end + 1;
    }
    conclude(stage)
}
