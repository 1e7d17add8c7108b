// The tables of offsets and the lengths of the sequences, and their rules.
ghost use Rattle.std.specs.Prelude.{◌≡◌, Bool, ℕ, true, false, ◌&&◌, ◌++◌, ◌+◌, ◌-◌, ◌*◌, ◌≤◌, ◌<◌, max, length, pos};
ghost use Rattle.std.specs.Int.Signed.{non_neg};
ghost use Rattle.laws.specs.Places.{every};
ghost use Rattle.laws.specs.Rules.{AllHold};
ghost use Rattle.laws.specs.Signed.{to_nat, eq_z};
ghost use Rattle.answers.specs.Limits.{checked_by};
ghost use Rattle.volume.specs.Index.{is_protein, header_table, sequence_table, ambiguity_table, sequences, index_of, tables_end};
ghost use Rattle.volume.specs.Tables.{offset_at, StepsTell, ambiguity_between, header_offset_rules, protein_offset_rules};
ghost use Rattle.volume.specs.Tables.{dna_offset_rules, sequence_offset_rules, offset_rules, protein_length, two_bit_length, dna_length};
ghost use Rattle.volume.specs.Tables.{protein_separator_rules, separator_rules, stated_rules, totals_of, total_rules};

use super::Index;
use super::fixed::states_at;
use answers::Refusal;
use fields::{Order, natural_at, read};

// The first offset of a nucleotide file.
const FIRST_NUCLEOTIDE_OFFSET: usize = 0;

// The place that offset k of the table at a place states.
#[tactic(auto, unfolding(crate::specs::Tables::offset_at))]
pub(crate) fn place(index: &[u8], table: usize, k: usize) -> usize
    requires { (table < 34359738368) × (k ≤ 2147483648) }
    ensures value { result ≡ to_nat (offset_at index.now table k) }
    ensures small { result < 2147483648 }
{
    natural_at(index, table + 4 * k)
}

// A table of offsets inside an index: where it starts, and how many steps it has from one offset to the next.
#[derive(Clone, Copy)]
struct Table<'a> {
    index: &'a [u8],
    start: usize,
    steps: usize,
    ghost inside: { start + 4 * (steps + 1) ≤ length index.now },
}

impl Table<'_> {
    // Offset k.
    #[tactic(auto, using(crate::proofs::Facts::part_field), unfolding(crate::specs::Tables::offset_at))]
    fn offset(&self, k: usize) -> i32
        requires { k ≤ self.now.steps }
        ensures { result ≡ offset_at self.now.index.now self.now.start k }
    {
        let at = self.start + 4 * k;
        let end = at + 4;
        read(Order::Big, &self.index[at..end], 0)
    }

    // The place that offset k states, where it is not negative.
    #[tactic(auto, using(crate::proofs::Natural::natural_part), unfolding(crate::specs::Tables::offset_at))]
    fn place(&self, k: usize) -> usize
        requires { (k ≤ self.now.steps) × (non_neg (offset_at self.now.index.now self.now.start k) ≡ true) }
        ensures value { result ≡ to_nat (offset_at self.now.index.now self.now.start k) }
        ensures small { result < 2147483648 }
    {
        let at = self.start + 4 * k;
        let end = at + 4;
        read::<u32>(Order::Big, &self.index[at..end], 0) as usize
    }

    // Whether offset k is a given size.
    #[tactic(auto, unfolding(crate::specs::Tables::offset_at))]
    fn states(&self, k: usize, size: usize) -> bool
        requires { k ≤ self.now.steps }
        ensures { result ≡ eq_z (offset_at self.now.index.now self.now.start k) (pos size) }
    {
        states_at(self.index, self.start + 4 * k, size)
    }

    // Whether each offset but the last passes a test with the one behind it. The loops over offsets have no early end, so that the
    // compiler asks several offsets at a time.
    fn each_step<F: Fn(i32, i32) -> bool>(&self, passes: F) -> bool
        requires { F.IsAlwaysCallable passes }
        ensures { (test : ℕ → Bool) → StepsTell (offset_at self.now.index.now self.now.start) (F.post passes) test self.now.steps → result ≡ every test self.now.steps }
    {
        let mut good = true;
        let mut low = self.offset(0);
        for i in 0..self.steps {
            let next = self.offset(i + 1);
            good &= passes(low, next);
            low = next;
        }
        good
    }

    // Whether the offsets start at a size, end at another, and each but the last passes a test with the one behind it.
    fn spans<F: Fn(i32, i32) -> bool>(&self, first: usize, passes: F, last: usize) -> bool
        requires { F.IsAlwaysCallable passes }
        ensures { (test : ℕ → Bool) → StepsTell (offset_at self.now.index.now self.now.start) (F.post passes) test self.now.steps → result ≡ (eq_z (offset_at self.now.index.now self.now.start 0) (pos first) && every test self.now.steps) && eq_z (offset_at self.now.index.now self.now.start self.now.steps) (pos last) }
    {
        self.states(0, first) && self.each_step(passes) && self.states(self.steps, last)
    }

    // Whether S[k] < A[k] <= S[k+1] for each k but the last, of this table S and a table A of the same index.
    fn ambiguity_between(&self, ends: &Self) -> bool
        requires index { ends.now.index.now ≡ self.now.index.now }
        requires steps { ends.now.steps ≡ self.now.steps }
        ensures { result ≡ every (ambiguity_between self.now.index.now self.now.start ends.now.start) self.now.steps }
    {
        let mut good = true;
        let mut low = self.offset(0);
        for i in 0..self.steps {
            let middle = ends.offset(i);
            let next = self.offset(i + 1);
            good &= (low < middle) & (middle <= next);
            low = next;
        }
        good
    }
}

// The length of the two-bit bytes from a start up to an end.
pub fn two_bit_length(sequence: &[u8], start: u32, end: u32) -> usize
    ensures { result ≡ two_bit_length sequence.now start end }
{
    let last = (end as usize).saturating_sub(1);
    4 * last.saturating_sub(start as usize) + (fields::byte(sequence, last) % 4) as usize
}

// An index whose fields kept their rules, with its numbers: its tables lie inside it.
#[derive(Clone, Copy)]
pub(crate) struct Tables<'a> {
    pub(crate) index: &'a [u8],
    pub(crate) numbers: Index,
    ghost read: { numbers ≡ index_of index.now },
    ghost few: { numbers.sequences ≤ 134217728 },
    ghost whole: { tables_end index.now ≤ length index.now },
}

#[tactic(auto, using(crate::proofs::Facts::two_tables, crate::proofs::Facts::third_table, crate::proofs::Reading::tables_near), unfolding(crate::specs::Index::index_of))]
impl<'a> Tables<'a> {
    fn is_protein(&self) -> bool
        ensures { result ≡ is_protein self.now.index.now }
    {
        self.numbers.kind == 1
    }

    // The header offsets.
    fn headers(&self) -> Table<'a>
        ensures index { result.index.now ≡ self.now.index.now }
        ensures start { result.start ≡ header_table self.now.index.now }
        ensures steps { result.steps ≡ sequences self.now.index.now }
    {
        Table {
            index: self.index,
            start: self.numbers.header_table,
            steps: self.numbers.sequences,
        }
    }

    // The offsets at which the sequences start.
    fn starts(&self) -> Table<'a>
        ensures index { result.index.now ≡ self.now.index.now }
        ensures start { result.start ≡ sequence_table self.now.index.now }
        ensures steps { result.steps ≡ sequences self.now.index.now }
    {
        Table {
            index: self.index,
            start: self.numbers.sequence_table,
            steps: self.numbers.sequences,
        }
    }

    // The offsets at which the two-bit bytes of a DNA volume's sequences end.
    fn ends(&self) -> Table<'a>
        requires { is_protein self.now.index.now ≡ false }
        ensures index { result.index.now ≡ self.now.index.now }
        ensures start { result.start ≡ ambiguity_table self.now.index.now }
        ensures steps { result.steps ≡ sequences self.now.index.now }
    {
        Table {
            index: self.index,
            start: self.numbers.ambiguity_table,
            steps: self.numbers.sequences,
        }
    }

    // The rules of the header offsets.
    fn check_header_offsets(&self, header: &[u8]) -> Result<(), Refusal>
        ensures { result ≡ checked_by (header_offset_rules self.now.index.now header.now) }
    {
        if !self
            .headers()
            .spans(0, |low, next| low <= next, header.len())
        {
            return Err(Refusal::BadOffsets);
        }
        Ok(())
    }

    // The sequence offsets of a protein volume.
    fn check_protein_offsets(&self, sequence: &[u8]) -> Result<(), Refusal>
        ensures { result ≡ checked_by (protein_offset_rules self.now.index.now sequence.now) }
    {
        if !self
            .starts()
            .spans(1, |low, next| low < next, sequence.len())
        {
            return Err(Refusal::BadOffsets);
        }
        Ok(())
    }

    // The sequence and ambiguity offsets of a DNA volume.
    fn check_dna_offsets(&self, sequence: &[u8]) -> Result<(), Refusal>
        requires { is_protein self.now.index.now ≡ false }
        ensures { result ≡ checked_by (dna_offset_rules self.now.index.now sequence.now) }
    {
        let starts = self.starts();
        let ends = self.ends();
        if !starts.states(0, FIRST_NUCLEOTIDE_OFFSET)
            || !starts.ambiguity_between(&ends)
            || !starts.states(starts.steps, sequence.len())
            || !ends.states(ends.steps, sequence.len())
        {
            return Err(Refusal::BadOffsets);
        }
        Ok(())
    }

    fn check_sequence_offsets(&self, sequence: &[u8]) -> Result<(), Refusal>
        ensures { result ≡ checked_by (sequence_offset_rules self.now.index.now sequence.now) }
    {
        if self.is_protein() {
            self.check_protein_offsets(sequence)
        } else {
            self.check_dna_offsets(sequence)
        }
    }

    // All offsets, 7.
    fn check_offsets(&self, sequence: &[u8], header: &[u8]) -> Result<(), Refusal>
        ensures { result ≡ checked_by (offset_rules self.now.index.now sequence.now header.now) }
    {
        self.check_header_offsets(header)?;
        self.check_sequence_offsets(sequence)
    }

    // A sum of lengths and a largest length against the stated ones, 9.
    fn check_stated(&self, sum: usize, largest: usize) -> Result<(), Refusal>
        ensures { result ≡ checked_by (stated_rules self.now.index.now sum largest) }
    {
        if sum != self.numbers.residues || largest != self.numbers.longest {
            return Err(Refusal::WrongTotals);
        }
        Ok(())
    }

    // The separators and the lengths of a protein volume, 8 and 9. The offsets rise from 1 to the file's length, so no test asks
    // for that again.
    fn check_protein_lengths(&self, sequence: &[u8]) -> Result<(), Refusal>
        requires { AllHold (protein_offset_rules self.now.index.now sequence.now) }
        ensures { result ≡ checked_by (protein_separator_rules self.now.index.now sequence.now ++ totals_of self.now.index.now (protein_length self.now.index.now)) }
    {
        if fields::byte(sequence, 0) != 0 {
            return Err(Refusal::BadSeparator);
        }
        let table = self.starts();
        let mut low = table.place(0);
        let mut sum = 0;
        let mut largest: usize = 0;
        for i in 0..table.steps {
            let next = table.place(i + 1);
            let end = next - 1;
            if sequence[end] != 0 {
                return Err(Refusal::BadSeparator);
            }
            let len = end - low;
            sum += len;
            largest = largest.max(len);
            low = next;
        }
        self.check_stated(sum, largest)
    }

    // The lengths of a DNA volume, 9. Each sequence has bytes inside the file, so no test asks for that again.
    fn check_dna_lengths(&self, sequence: &[u8]) -> Result<(), Refusal>
        requires dna { is_protein self.now.index.now ≡ false }
        requires offsets { AllHold (dna_offset_rules self.now.index.now sequence.now) }
        ensures { result ≡ checked_by (totals_of self.now.index.now (dna_length self.now.index.now sequence.now)) }
    {
        let starts = self.starts();
        let ends = self.ends();
        let mut sum = 0;
        let mut largest: usize = 0;
        for i in 0..starts.steps {
            let start = starts.place(i);
            let last = ends.place(i) - 1;
            let len = 4 * (last - start) + (sequence[last] % 4) as usize;
            sum += len;
            largest = largest.max(len);
        }
        self.check_stated(sum, largest)
    }

    // Separators and totals, 8 and 9.
    fn check_lengths(&self, sequence: &[u8]) -> Result<(), Refusal>
        requires { AllHold (sequence_offset_rules self.now.index.now sequence.now) }
        ensures { result ≡ checked_by (separator_rules self.now.index.now sequence.now ++ total_rules self.now.index.now sequence.now) }
    {
        if self.is_protein() {
            self.check_protein_lengths(sequence)
        } else {
            self.check_dna_lengths(sequence)
        }
    }

    // What the tables and the files say, 7 to 9.
    pub(crate) fn check(&self, sequence: &[u8], header: &[u8]) -> Result<(), Refusal>
        ensures { result ≡ checked_by (offset_rules self.now.index.now sequence.now header.now ++ (separator_rules self.now.index.now sequence.now ++ total_rules self.now.index.now sequence.now)) }
    {
        self.check_offsets(sequence, header)?;
        self.check_lengths(sequence)
    }
}
