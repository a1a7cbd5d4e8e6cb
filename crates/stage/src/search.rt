// What the searches of a dequeue read (specs/Searching.antt).
use table_words::buffers::RegMatrix;
use table_words::segments::Segments;

// The maps of the registers' units, the matrix, the segments to place, and for the cost of evicting holders the words of the records and the spill
// weights.
#[derive(Clone, Copy)]
pub struct Search<'a> {
    pub maps: &'a [u64],
    pub matrix: RegMatrix<'a>,
    pub segments: Segments<'a>,
    pub words: &'a [u64],
    pub spills: &'a [f32],
}
