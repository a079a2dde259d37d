// The rows of the matrix: four words for each fault, from both rails' words of its nodes and both planes of its label.
ghost use Rattle.std.specs.Prelude.{◌≡◌, ◌*◌, ◌<◌, ◌≤◌, length};
ghost use Rattle.words.specs.Written.{written};
ghost use Rattle.grading.specs.Codes.{CodeFits, CodesFit};
ghost use Rattle.grade_marks.specs.Model.{mark_word, vectors_in, row_under_masks, rows_words};

use crate::labels::LabelPlanes;
use grading::codes::{first_in, kind_in, second_in};
use std::array;
use switch::Rails;
use words::first_ones;

// Word w of a row: kind 0 where one end is joined to supply and the other to ground; kind 1 where the label is 1 and the node joined to ground, or the label 0 and the node joined to supply.
// The kind stays a number here, as it stands in a row that `togyamiru_rows` hands out.
#[tactic(auto, unfolding(grading::specs::Codes::CodeFits, crate::specs::Model::mark_word))]
fn mark_word(row: u32, w: usize, rails: &Rails, labels: &LabelPlanes) -> u64
    requires code_fits { CodeFits row }
    requires w_bound { w < 4 }
    ensures { result ≡ mark_word rails.now labels.now row w }
{
    let a = 4 * (first_in(row) as usize) + w;
    let b = 4 * (second_in(row) as usize) + w;
    if kind_in(row) == 0 {
        return (rails.supply[a] & rails.ground[b]) | (rails.ground[a] & rails.supply[b]);
    }
    (labels.ones[b] & rails.ground[a]) | (labels.zeros[b] & rails.supply[a])
}

// The places of the vectors in word w.
fn vectors_in(vectors: usize, w: usize) -> u64
    requires { w < 4 }
    ensures { result ≡ vectors_in vectors w }
{
    first_ones(vectors.saturating_sub(64 * w))
}

// The four words of one row.
fn write_row(row: u32, masks: &[u64; 4], rails: &Rails, labels: &LabelPlanes, words: &mut [u64])
    requires code_fits { CodeFits row }
    requires words_len { length words.old ≡ 4 }
    ensures { words.new ≡ row_under_masks rails.now labels.now masks.now row }
{
    for (w, mask) in masks.iter().enumerate() {
        words[w] = mark_word(row, w, rails, labels) & *mask;
    }
}

// The rows of an instance, from the matrix's front on.
pub fn write_rows(
    rows: &[u32],
    vectors: usize,
    rails: &Rails,
    labels: &LabelPlanes,
    matrix: &mut [u64],
)
    requires matrix_len { 4 * length rows.now ≤ length matrix.old }
    requires codes_fit { CodesFit rows.now 0 (length rows.now) }
    ensures { matrix.new ≡ written matrix.old 0 (rows_words rows.now rails.now labels.now vectors) }
{
    let masks: [u64; 4] = array::from_fn(|w| vectors_in(vectors, w));
    for (r, row) in rows.iter().enumerate() {
        write_row(*row, &masks, rails, labels, &mut matrix[4 * r..4 * r + 4]);
    }
}
