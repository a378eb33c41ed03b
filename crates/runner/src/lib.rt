// A run of a procedure of a recipe book, with its steps counted and its call depth bounded.
#![tactic(auto)]

ghost use Rattle.std.specs.Prelude.{◌≤◌};
ghost use Rattle.meaning.specs.Entries.{Runs};
ghost use Rattle.refusals.specs.Numbers.{refusal, field};
ghost use Rattle.book.specs.Here.{BookHere};
ghost use Rattle.runner.specs.Answer.{answer_of};
ghost use Rattle.runner.specs.Step.{packed_of};
ghost use Rattle.runner.specs.Endings.{ending_of, value_of};
ghost use Rattle.runner.specs.Answering.{AnsweredPost, JudgedPost};

mod answer;
mod cycle;
mod frame;
mod jumps;
pub mod limits;
mod operate;
mod ran;
mod skip;
mod small;
mod start;

use crate::answer::Answer;
use crate::frame::gather;
use crate::limits::{LEAST_CELLS, MOST_STEPS};
pub use crate::ran::{Ending, Ran};
use crate::start::started;
use book::Book;
use book::bytes::number;
use book::entry::parameters;
use refusals::Refusal;

// What an answer says of a run under the budget.
fn answered(budget: u64, a: Answer) -> Ran
    requires { (answer_of (packed_of a)).left ≤ budget }
    ensures { AnsweredPost budget (packed_of a) result }
{
    match a {
        Ok(went) => Ran {
            ending: Ending::Finished(went.value()),
            steps: budget - u64::from(went.left()),
        },
        Err(over) => Ran {
            ending: over.ending(),
            steps: budget - u64::from(over.left()),
        },
    }
}

// Whether a run of a readable book is refused.
fn judged(
    book: &[u8],
    procedure: usize,
    inputs: usize,
    budget: u64,
    cells: usize,
) -> Result<(), Refusal>
    requires { BookHere book.now }
    ensures { JudgedPost book.now procedure inputs budget cells (refusal result) }
{
    if number(book[0]) <= procedure {
        return Err(Refusal::Procedure);
    }
    if inputs != parameters(book, procedure) {
        return Err(Refusal::Inputs);
    }
    if cells < LEAST_CELLS {
        return Err(Refusal::Cells);
    }
    if MOST_STEPS < budget {
        return Err(Refusal::Budget);
    }
    Ok(())
}

// A run of a book that is readable.
fn run_readable(
    book: Book,
    procedure: usize,
    inputs: &[u32],
    budget: u64,
    work: &mut [u32],
) -> Result<Ran, Refusal>
    ensures { Runs book.entry.bytes.now procedure inputs.now budget work.old
        (refusal result) (field ending_of result) (field value_of result) (field (λ r. r.steps) result) work.new }
{
    judged(book.bytes, procedure, inputs.len(), budget, work.len())?;
    let given = gather(inputs);
    let a = started(
        book.bytes,
        procedure,
        &given,
        budget as u32,
        &mut work[..LEAST_CELLS],
    );
    Ok(answered(budget, a))
}

// Procedure `procedure` on the inputs, under the budget. On a refusal every cell is as it was; after a run the first 1,024 are 0
// and the others as they were.
pub fn run(
    book: &[u8],
    procedure: usize,
    inputs: &[u32],
    budget: u64,
    work: &mut [u32],
) -> Result<Ran, Refusal>
    ensures { Runs book.now procedure inputs.now budget work.old
        (refusal result) (field ending_of result) (field value_of result) (field (λ r. r.steps) result) work.new }
{
    run_readable(Book::read(book)?, procedure, inputs, budget, work)
}
