// The bests of a table that are known so far.
ghost use Rattle.std.specs.Prelude.{◌≡◌, ◌+◌, ◌-◌, ◌≤◌, ◌<◌, length};
ghost use Rattle.tables.specs.Working.{AreBests};
ghost use Rattle.tables.specs.Table.{best, least_size, counterexample, table_capacity};
ghost use Rattle.tables.specs.Check.{at_front};

// A table whose form passed, and its greatest totals from best 0 on.
#[derive(Clone, Copy)]
pub(crate) struct Bests<'a> {
    pub table: &'a [u32],
    pub totals: &'a [u64],
    pub ghost known: { AreBests table.now totals.now },
}

impl<'a> Bests<'a> {
    // Two lists, of which one fits y, and the other the rest of the first capacity whose best is
    // not known.
    #[tactic(auto, using(crate::proofs::Known::known_small))]
    fn parts(self, y: usize) -> u64
        requires positive { 1 ≤ y }
        requires known { y < length self.totals.now }
        ensures { result ≡ best self.entry.table.now y
            + best self.entry.table.now (length self.entry.totals.now - y) }
    {
        self.totals[y] + self.totals[self.totals.len() - y]
    }

    // The first best that is not known: the entry of c, or two parts, of which one is at most half
    // of c. A `for` over y, by one or by `step_by(2)`, takes 1.5 times as long: the compiler makes
    // vectors of it, and such as any x86-64 has do not compare numbers of 64 bits.
    #[tactic(auto, using(crate::proofs::Halved::halved_twice))]
    pub(crate) fn next_best(self) -> u64
        requires positive { 1 ≤ length self.totals.now }
        requires in_table { length self.totals.now < length self.table.now }
        ensures { result ≡ best self.entry.table.now (length self.entry.totals.now) }
    {
        let c = self.totals.len();
        let mut most = u64::from(self.table[c]);
        let mut y = 1;
        while y + 2 <= c - y {
            let pair = self.parts(y).max(self.parts(y + 1));
            most = most.max(pair);
            y += 2;
        }
        if y <= c - y {
            return most.max(self.parts(y));
        }
        most
    }

    // The least size with which a list that fits c and reaches best c begins.
    fn least_size(self, c: usize) -> usize
        requires positive { 1 ≤ c }
        requires known { c < length self.totals.now }
        ensures { result ≡ least_size self.entry.table.now c }
    {
        let whole = self.totals[c];
        (1..c)
            .find(|y| u64::from(self.table[*y]) + self.totals[c - *y] == whole)
            .unwrap_or(c)
    }

    // Writes the counterexample of a table that is refused 11, and answers its length.
    #[tactic(auto, using(crate::proofs::Written::turn))]
    pub(crate) fn write_counterexample(self, list: &mut [u32]) -> usize
        requires all_known { length self.totals.now ≡ length self.table.now }
        requires room { table_capacity self.table.now ≤ length list.old }
        ensures length { result ≡ length (counterexample self.entry.table.now) }
        ensures written { list.new ≡ at_front (counterexample self.entry.table.now) list.old }
    {
        let mut c = self.table.len() - 1;
        let mut n = 0;
        // A `for` over the places needs an `if` that ends it: c says when, not the list's length.
        while 0 < self.totals[c] {
            let y = self.least_size(c);
            list[n] = y as u32;
            n += 1;
            c -= y;
        }
        n
    }
}
