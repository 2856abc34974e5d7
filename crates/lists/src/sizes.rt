// A list of sizes with a count for each that is accepted at a capacity: two slices, as C lends them.
ghost use Rattle.lists.specs.Counted.{CountedList};

#[derive(Clone, Copy)]
pub struct CountedSizes<'a> {
    pub capacity: u64,
    pub sizes: &'a [u32],
    pub counts: &'a [u16],
    pub ghost accepted: { CountedList capacity sizes.now counts.now },
}
