// What is made of a paper while it is read, and how: from what is made of the papers in it.
ghost use Rattle.std.specs.Prelude.{◌≡◌, ℕ, ◌+◌, ◌^◌, ◌<◌};
ghost use Rattle.papers.specs.Paper.{Paper, num, items, fields, Papers, no_items, item, Fields, no_fields, field, deep};

pub trait Fold {
    // What is made of a paper, and of the papers of a list so far.
    type Value: Copy;
    // What is made of the fields of a record so far.
    type Fields: Copy;

    // What is made of each paper.
    ghost of: { Self → Paper → Self.Value };

    // What a list comes to of which so many papers are read, when these are read behind them.
    ghost list_of: { Self → ℕ → Self.Value → Papers → Self.Value };

    // What a record comes to of which some fields are read, when these are read behind them.
    ghost record_of: { Self → Self.Fields → Fields → Self.Value };

    // Whether there is room for a value.
    ghost has_room: { Self → Self.Value → Type 0 };

    fn number(&self, number: u64) -> Self::Value
        ensures { result ≡ of self.now (num number) };

    fn no_papers(&self) -> Self::Value
        ensures { (ds : Papers) → of self.now (items ds) ≡ list_of self.now 0 result ds };

    fn with_paper(&self, papers: Self::Value, paper: Self::Value) -> Self::Value
        ensures { (count : ℕ) (d : Paper) (ds : Papers) → of self.now d ≡ paper → list_of self.now count papers (item d ds) ≡ list_of self.now (count + 1) result ds };

    fn list(&self, count: u64, papers: Self::Value) -> Self::Value
        requires { has_room self.now (list_of self.now count papers no_items) }
        ensures { result ≡ list_of self.now count papers no_items };

    fn no_fields(&self) -> Self::Fields
        ensures { (fs : Fields) → of self.now (fields fs) ≡ record_of self.now result fs };

    // In place, since what is kept of a record may be large.
    fn with_field(&self, so_far: &mut Self::Fields, name: u64, inner: Self::Value)
        ensures { (d : Paper) (fs : Fields) → of self.now d ≡ inner → record_of self.now so_far.old (field name d fs) ≡ record_of self.now so_far.new fs };

    fn record(&self, so_far: &Self::Fields) -> Self::Value
        requires { has_room self.now (record_of self.now so_far.now no_fields) }
        ensures { result ≡ record_of self.now so_far.now no_fields };

    // There is room for what is made of a paper whose depth is a number of 64 bits.
    ghost room: { (s : Self) (d : Paper) → deep d < 2 ^ 64 → has_room s (of s d) };
}
