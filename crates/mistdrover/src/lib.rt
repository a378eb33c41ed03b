// The public face: the five entries with the signatures of C functions, which `mistdrover_c` exports.
// Each returns the refusal number, 0 for none, and always fills the answer.
// Where it widens a number by `as`, the number is a `usize`, or becomes one (kept: the C interface has 64 bits for both).
#![tactic(auto)]

ghost use Rattle.std.specs.Prelude.{◌≡◌};
ghost use Rattle.refusals.specs.Numbers.{refusal, field};
ghost use Rattle.mistdrover.specs.Face.{eight, FaceRead, FaceRun, FaceCheck, FaceFind, FaceLevel};

use refusals::{Refusal, number_of};

// Fills the answer with three fields, 0 on a refusal, and returns the refusal's number.
fn told(fields: Result<(u64, u64, u64), Refusal>, answer: &mut [u64; 8]) -> u32
    ensures number { result ≡ refusal fields }
    ensures filled { answer.new ≡ eight (field (λ f. f.0) fields) (field (λ f. f.1) fields) (field (λ f. f.2) fields) }
{
    let (a, b, c) = fields.unwrap_or((0, 0, 0));
    *answer = [a, b, c, 0, 0, 0, 0, 0];
    u32::from(number_of(&fields))
}

#[unsafe(no_mangle)]
pub extern "C" fn md_read(book: &[u8], answer: &mut [u64; 8]) -> u32
    ensures { FaceRead book.now result answer.new }
{
    told(book::read(book).map(|size| (size as u64, 0, 0)), answer)
}

#[unsafe(no_mangle)]
pub extern "C" fn md_run(
    book: &[u8],
    procedure: u64,
    inputs: &[u32],
    budget: u64,
    work: &mut [u32],
    answer: &mut [u64; 8],
) -> u32
    ensures { FaceRun book.now procedure inputs.now budget work.old result answer.new work.new }
{
    let ran = runner::run(book, procedure as usize, inputs, budget, work);
    let fields = ran.map(|ran| {
        let ending = ran.ending;
        (
            u64::from(ending.number()),
            u64::from(ending.value()),
            ran.steps,
        )
    });
    told(fields, answer)
}

#[unsafe(no_mangle)]
pub extern "C" fn md_check(book: &[u8], summary: &[u8], answer: &mut [u64; 8]) -> u32
    ensures { FaceCheck book.now summary.now result answer.new }
{
    told(flow::check(book, summary).map(|()| (0, 0, 0)), answer)
}

#[unsafe(no_mangle)]
pub extern "C" fn md_find(book: &[u8], buffer: &mut [u8], answer: &mut [u64; 8]) -> u32
    ensures { FaceFind book.now buffer.old result answer.new buffer.new }
{
    let found = flow::find(book, buffer);
    told(
        found.map(|found| (found.size as u64, found.rounds as u64, 0)),
        answer,
    )
}

#[unsafe(no_mangle)]
pub extern "C" fn md_level(
    book: &[u8],
    table: &[u8],
    procedure: u64,
    levels: &[u8],
    summary: &[u8],
    answer: &mut [u64; 8],
) -> u32
    ensures { FaceLevel book.now table.now procedure levels.now summary.now result answer.new }
{
    let level = reporter::level(book, table, procedure, levels, summary);
    told(level.map(|level| (u64::from(level), 0, 0)), answer)
}
