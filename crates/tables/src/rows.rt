// The dependencies at one database, a set for each slot.
ghost use Rattle.std.specs.Prelude.{◌≡◌, ◌<◌, ◌==◌};
ghost use Rattle.mask.specs.Members.{union_of};
ghost use Rattle.tables.specs.Limits.{jobs};
ghost use Rattle.tables.specs.Tables.{entry};
ghost use Rattle.tables.specs.Test.{partners, pressing, rows_sound};
ghost use Rattle.tables.specs.Parts.{row_wrong, quiet};

use mask::Set;
use numbers::Slot;

// The slots whose job names the database, those whose step there waits to be released, and those whose step is under way.
#[derive(Clone, Copy)]
pub(crate) struct Steps {
    pub(crate) named: u32,
    pub(crate) waiting: u32,
    pub(crate) under_way: u32,
}

// One slot's row: who goes before it.
#[derive(Clone, Copy)]
struct Row {
    slot: usize,
    into: u32,
    ghost in_range: { slot < jobs },
}

// As `slots::open_slots` of a state: a chain of one line each.
#[tactic(auto, using(mask::proofs::Union::fold_union))]
fn are_empty(rows: &[u32; Slot::COUNT]) -> bool
    ensures { result ≡ (union_of jobs (entry rows.now) == 0) }
{
    rows.iter().fold(0, |any, into| any | *into) == 0
}

impl Steps {
    // Who may go before the row's slot, and who has to. By bits: with `holds` and `without_member` the rows took four times as long (tried), since LLVM then tests them one by one.
    #[tactic(auto, using(crate::proofs::Testing::shifts), unfolding(crate::specs::Test::partners))]
    fn partners(self, row: Row) -> u32
        ensures { result ≡ partners self.named row.slot }
    {
        let at = 1u32 << row.slot;
        if self.named & at != 0 {
            self.named.less(at)
        } else {
            0
        }
    }

    // By bits for the same reason.
    #[tactic(auto, using(crate::proofs::Testing::shifts), unfolding(crate::specs::Test::pressing))]
    fn pressing(self, row: Row) -> u32
        ensures { result ≡ pressing self.waiting self.under_way row.slot }
    {
        if self.waiting & 1 << row.slot != 0 {
            self.under_way
        } else {
            0
        }
    }

    // Those that go before the slot and may not, and those that have to and do not.
    #[tactic(auto, unfolding(crate::specs::Parts::row_wrong))]
    fn row_wrong(self, row: Row) -> u32
        ensures { result ≡ row_wrong self.named self.waiting self.under_way row.slot row.into }
    {
        row.into.less(self.partners(row)) | self.pressing(row).less(row.into)
    }

    // Row by row. What is wrong is gathered without a branch.
    #[tactic(auto, using(crate::proofs::Testing::gathered_rows))]
    fn rows_apart(self, rows: &[u32; Slot::COUNT]) -> bool
        ensures { result ≡ rows_sound rows.now self.named self.waiting self.under_way }
    {
        let mut wrong = 0;
        for (slot, into) in rows.iter().enumerate() {
            let row = Row { slot, into: *into };
            wrong |= self.row_wrong(row);
        }
        wrong == 0
    }

    // At most one job names the database, and no step presses on another: then nothing may go before anything.
    #[tactic(auto, unfolding(crate::specs::Parts::quiet))]
    fn are_quiet(self) -> bool
        ensures { result ≡ quiet self.named self.waiting self.under_way }
    {
        self.named.rest() == 0 && (self.waiting == 0 || self.under_way == 0)
    }

    // A quiet database, as many are where few jobs are open, takes a fifth of the time.
    #[tactic(auto, using(crate::proofs::Quiet::rows_quiet))]
    pub(crate) fn rows_sound(self, rows: &[u32; Slot::COUNT]) -> bool
        ensures { result ≡ rows_sound rows.now self.named self.waiting self.under_way }
    {
        if self.are_quiet() {
            are_empty(rows)
        } else {
            self.rows_apart(rows)
        }
    }
}
