// What is lent of the table, of the matrix and of a stage's state, as structs of slices (specs/Buffers.antt): these go from call to call together.

// The table to read: its entries' ends, and the rest of each, in two slices since C lends them so.
#[derive(Clone, Copy)]
pub struct Table<'a> {
    pub ends: &'a [u64],
    pub rests: &'a [u64],
}

// The table to change. The fixed uses go beside it where a move reads them: a struct of both would be no plainer, as what changes the table (entries)
// takes the table alone, so that each move would make a `TableMut` of it again, and what reads the fixed uses takes no table.
#[derive(Drop)]
pub struct TableMut<'a> {
    pub ends: &'a mut [u64],
    pub rests: &'a mut [u64],
}

// The reservation matrix to read (`RegMatrix`): the table, and the fixed uses.
#[derive(Clone, Copy)]
pub struct RegMatrix<'a> {
    pub table: Table<'a>,
    pub uses: &'a [u64],
}

// A stage's state to change: the table and the queue. The registers last given go beside it: C lends `last` to an eviction to read only
// (pezhkadu_evict), to which a struct of all four slices to change would lend more; and one for the others alone would be taken apart again
// wherever they evict. Tried, and not covered by the check: a struct of this one and `last`, of which an eviction is lent the first to change and
// the second to read. A job is lent to read beside it, and records go by value here and in words there, so these stay beside it too. The table is
// no `TableMut` in it: tried, and who makes such a state of his own slices learns nothing of them afterwards.
#[derive(Drop)]
pub struct LentState<'a> {
    pub ends: &'a mut [u64],
    pub rests: &'a mut [u64],
    pub queue: &'a mut [u64],
}

impl Table<'_> {
    ghost use Rattle.std.specs.Prelude.{◌≡◌, ◌||◌, ltb, length};
    ghost use Rattle.reg_matrix.specs.Layout.{max_entries};

    // Whether one of its slices is below its limit.
    pub fn is_short(self) -> bool
        ensures { result ≡ (ltb (length self.entry.ends.now) max_entries || ltb (length self.entry.rests.now) max_entries) }
    {
        self.ends.len() < 2560 || self.rests.len() < 2560
    }
}

impl RegMatrix<'_> {
    ghost use Rattle.std.specs.Prelude.{◌≡◌, ◌||◌, ltb, length};
    ghost use Rattle.reg_matrix.specs.Layout.{max_entries, max_fixed};

    // Whether one of its slices, the table's too, is below its limit.
    pub fn is_short(self) -> bool
        ensures { result ≡ (ltb (length self.entry.table.ends.now) max_entries || ltb (length self.entry.table.rests.now) max_entries || ltb (length self.entry.uses.now) max_fixed) }
    {
        self.table.is_short() || self.uses.len() < 512
    }
}

impl TableMut<'_> {
    ghost use Rattle.std.specs.Prelude.{◌≡◌};

    // The table to read.
    pub fn as_table(&self) -> Table<'_>
        ensures { (result.ends.now ≡ self.now.ends.now) × (result.rests.now ≡ self.now.rests.now) }
    {
        Table {
            ends: self.ends,
            rests: self.rests,
        }
    }
}

impl LentState<'_> {
    ghost use Rattle.std.specs.Prelude.{◌≡◌};

    // The table to read. There is no method for the table to change: tried, and the check proves no clause of what a state is once two slices that a
    // call lent are back. So who changes the table makes a `TableMut` of the two.
    pub fn as_table(&self) -> Table<'_>
        ensures { (result.ends.now ≡ self.now.ends.now) × (result.rests.now ≡ self.now.rests.now) }
    {
        let LentState { ends, rests, .. } = self;
        Table { ends, rests }
    }
}
