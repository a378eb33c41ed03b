// The C library: exports the five functions of `mistdrover` under their own names, each with its clauses, as `include/mistdrover.h`
// declares them. It holds no code of its own.
#![tactic(auto)]

ghost use Rattle.mistdrover.specs.Face.{FaceRead, FaceRun, FaceCheck, FaceFind, FaceLevel};

#[unsafe(no_mangle)]
pub extern "C" fn md_read(book: &[u8], answer: &mut [u64; 8]) -> u32
    ensures { FaceRead book.now result answer.new }
{
    mistdrover::md_read(book, answer)
}

#[unsafe(no_mangle)]
pub extern "C" fn md_run(
    book: &[u8],
    procedure: u64,
    inputs: &[u32],
    budget: u64,
    work: &mut [u32],
    answer: &mut [u64; 8],
) -> u32
    ensures { FaceRun book.now procedure inputs.now budget work.old result answer.new work.new }
{
    mistdrover::md_run(book, procedure, inputs, budget, work, answer)
}

#[unsafe(no_mangle)]
pub extern "C" fn md_check(book: &[u8], summary: &[u8], answer: &mut [u64; 8]) -> u32
    ensures { FaceCheck book.now summary.now result answer.new }
{
    mistdrover::md_check(book, summary, answer)
}

#[unsafe(no_mangle)]
pub extern "C" fn md_find(book: &[u8], buffer: &mut [u8], answer: &mut [u64; 8]) -> u32
    ensures { FaceFind book.now buffer.old result answer.new buffer.new }
{
    mistdrover::md_find(book, buffer, answer)
}

#[unsafe(no_mangle)]
pub extern "C" fn md_level(
    book: &[u8],
    table: &[u8],
    procedure: u64,
    levels: &[u8],
    summary: &[u8],
    answer: &mut [u64; 8],
) -> u32
    ensures { FaceLevel book.now table.now procedure levels.now summary.now result answer.new }
{
    mistdrover::md_level(book, table, procedure, levels, summary, answer)
}
