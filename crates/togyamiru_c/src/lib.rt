// The entries for C: the three functions of `togyamiru`, exported under their own names. A static library is no library that other crates use, so it is a crate of its own.
#![tactic(auto)]

ghost use Rattle.grading.specs.Buffers.{buffers_of};
ghost use Rattle.togyamiru.specs.Entry.{EntryPromise};
ghost use Rattle.togyamiru.specs.NumbersEntry.{NumbersPromise};
ghost use Rattle.togyamiru.specs.RowsEntry.{RowsPromise};

// Grades a file into lent buffers. The answer is six numbers: the refusal's number and its place, 0 and 0 where there is none, and the counts of vectors, faults, classes and found.
#[unsafe(no_mangle)]
pub extern "C" fn togyamiru_grade(
    file: &[u8],
    matrix: &mut [u64],
    classes: &mut [u16],
    answer: &mut [u64; 6],
)
    ensures { EntryPromise file.now (buffers_of matrix.old classes.old) answer.new (buffers_of matrix.new classes.new) }
{
    togyamiru::togyamiru_grade(file, matrix, classes, answer);
}

// Grades as `togyamiru_grade` does. The answer is as many numbers as there is room for: those six, then the rounds of joining.
#[unsafe(no_mangle)]
pub extern "C" fn togyamiru_grade_numbers(
    file: &[u8],
    matrix: &mut [u64],
    classes: &mut [u16],
    numbers: &mut [u64],
)
    ensures { NumbersPromise file.now (buffers_of matrix.old classes.old) numbers.old numbers.new (buffers_of matrix.new classes.new) }
{
    togyamiru::togyamiru_grade_numbers(file, matrix, classes, numbers);
}

// Lists the rows of a file in a lent buffer, a number each. The answer is three numbers: the refusal's number and its place, 0 and 0 where there is none, and the count of faults.
#[unsafe(no_mangle)]
pub extern "C" fn togyamiru_rows(file: &[u8], rows: &mut [u32], answer: &mut [u64; 3])
    ensures { RowsPromise file.now rows.old answer.new rows.new }
{
    togyamiru::togyamiru_rows(file, rows, answer);
}
