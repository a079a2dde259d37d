// The grader for programs in C and Rust: three functions over numbers and slices. The crate `togyamiru_c` exports them to C (include/togyamiru.h).
#![tactic(auto)]

mod answering;

ghost use Rattle.grading.specs.Buffers.{buffers_of};
ghost use Rattle.togyamiru.specs.Entry.{EntryPromise};
ghost use Rattle.togyamiru.specs.NumbersEntry.{NumbersPromise};
ghost use Rattle.togyamiru.specs.RowsEntry.{RowsPromise};

use crate::answering::{Asked, answer_to, numbers_of, put_numbers};
use grading::answers::{counts_of, number_of, place_of};

// Grades a file into lent buffers. The answer is six numbers: the refusal's number and its place, 0 and 0 where there is none, and the counts of vectors, faults, classes and found.
pub fn togyamiru_grade(file: &[u8], matrix: &mut [u64], classes: &mut [u16], answer: &mut [u64; 6])
    ensures { EntryPromise file.now (buffers_of matrix.old classes.old) answer.new (buffers_of matrix.new classes.new) }
{
    togyamiru_grade_numbers(file, matrix, classes, answer);
}

// Grades as `togyamiru_grade` does. The answer is as many numbers as there is room for: those six, then the rounds of joining.
pub fn togyamiru_grade_numbers(
    file: &[u8],
    matrix: &mut [u64],
    classes: &mut [u16],
    numbers: &mut [u64],
)
    ensures { NumbersPromise file.now (buffers_of matrix.old classes.old) numbers.old numbers.new (buffers_of matrix.new classes.new) }
{
    let all = numbers_of(answer_to(file, Asked::Grading { matrix, classes }));
    put_numbers(all, numbers);
}

// Lists the rows of a file in a lent buffer, a number each. The answer is three numbers: the refusal's number and its place, 0 and 0 where there is none, and the count of faults.
#[tactic(auto, unfolding(crate::specs::RowsEntry::three_numbers))]
pub fn togyamiru_rows(file: &[u8], rows: &mut [u32], answer: &mut [u64; 3])
    ensures { RowsPromise file.now rows.old answer.new rows.new }
{
    let given = answer_to(file, Asked::Rows(rows));
    let counts = counts_of(given);
    *answer = [
        number_of(given) as u64,
        place_of(given) as u64,
        counts.faults as u64,
    ];
}
