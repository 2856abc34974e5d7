// The grammar of a job: which tag may follow the last one, where a job may end, which lengths a tag
// may have; and the refusals of a field by it. Each predicate is one line of the format's table, and takes
// what that line names: of kind, last tag (none before the first field), number of steps or of sizes, tag.
ghost use Rattle.std.specs.Prelude.{◌≡◌, ◌&&◌, ◌||◌, ◌*◌, ◌≤◌, leb, eqb};
ghost use Rattle.tables.specs.Check.{most_entries};
ghost use Rattle.fields.specs.Tags.{tag_number, last_number};
ghost use Rattle.fields.specs.Parts.{is_step};
ghost use Rattle.fields.specs.Grammar.{
  most_sizes,
  step_follows,
  row_follows,
  counts_follow,
  blocks_follow,
  may_follow,
  may_end,
  length_right,
};
ghost use Rattle.fields.specs.Reading.{header_refusal};
ghost use Rattle.fields.specs.Record.{TagOf};
ghost use Rattle.refusals.specs.Number.{number_in};

use crate::tag::Tag;
use crate::{FLOOR_KIND, Header, MOST_SIZES, MOST_STEPS, ROWS_KIND};
use refusals::Refusal;

// The bytes of the longest list of sizes and of the longest table.
const MOST_LIST_BYTES: usize = 4 * MOST_SIZES;

const MOST_TABLE_BYTES: usize = 4 * tables::MOST_ENTRIES;

// The place of the next field: the kind of the job, the tag before, how many steps and sizes so far.
#[derive(Clone, Copy)]
pub(crate) struct Place {
    pub(crate) kind: u8,
    pub(crate) last: Option<Tag>,
    pub(crate) steps: usize,
    pub(crate) sizes: usize,
    pub(crate) ghost few: { sizes ≤ most_sizes },
}

#[tactic(auto, unfolding(crate::specs::Parts::is_step))]
fn is_step(tag: Tag) -> bool
    ensures { result ≡ is_step (tag_number tag) }
{
    matches!(tag, Tag::Family | Tag::Table)
}

// A step behind fewer than eight.
#[tactic(auto, unfolding(crate::specs::Grammar::step_follows))]
fn step_follows(steps: usize, tag: Tag) -> bool
    ensures { result ≡ step_follows steps (tag_number tag) }
{
    is_step(tag) && steps < MOST_STEPS
}

// A row behind no step.
#[tactic(auto, unfolding(crate::specs::Grammar::row_follows, crate::specs::Parts::is_row))]
fn row_follows(last: Tag, tag: Tag) -> bool
    ensures { result ≡ row_follows (tag_number last) (tag_number tag) }
{
    !is_step(last) && tag == Tag::Row
}

// The counts of a floor job, right behind its sizes.
#[tactic(auto, unfolding(crate::specs::Grammar::counts_follow))]
fn counts_follow(kind: u8, last: Tag, tag: Tag) -> bool
    ensures { result ≡ counts_follow kind (tag_number last) (tag_number tag) }
{
    kind == FLOOR_KIND && last == Tag::Sizes && tag == Tag::Counts
}

// The sizes, or their counts.
fn is_list(tag: Tag) -> bool
    ensures { result ≡ (eqb (tag_number tag) 3 || eqb (tag_number tag) 7) }
{
    matches!(tag, Tag::Sizes | Tag::Counts)
}

// The blocks of a floor job, right behind its sizes or their counts.
#[tactic(auto, unfolding(crate::specs::Grammar::blocks_follow))]
fn blocks_follow(kind: u8, last: Tag, tag: Tag) -> bool
    ensures { result ≡ blocks_follow kind (tag_number last) (tag_number tag) }
{
    is_list(last) && kind == FLOOR_KIND && tag == Tag::Blocks
}

// Counts or blocks.
fn list_follows(kind: u8, last: Tag, tag: Tag) -> bool
    ensures { result ≡ (counts_follow kind (tag_number last) (tag_number tag)
        || blocks_follow kind (tag_number last) (tag_number tag)) }
{
    counts_follow(kind, last, tag) || blocks_follow(kind, last, tag)
}

// The bytes of a table: 2 to MOST_ENTRIES entries of four.
fn table_length_right(n: usize) -> bool
    ensures { result ≡ (leb 8 n && leb n (4 * most_entries)) }
{
    (8..=MOST_TABLE_BYTES).contains(&n)
}

// Whether a job may end behind the last tag.
#[tactic(auto, unfolding(crate::specs::Grammar::may_end))]
pub(crate) fn may_end(kind: u8, last: Option<Tag>) -> bool
    ensures { result ≡ may_end kind (last_number last) }
{
    kind == ROWS_KIND || !matches!(last, None | Some(Tag::Kind | Tag::Capacity))
}

impl Place {
    // Whether a tag may follow.
    #[tactic(auto, unfolding(crate::specs::Grammar::may_follow))]
    fn may_follow(self, tag: Tag) -> bool
        ensures { result ≡ may_follow self.kind (last_number self.last) self.steps (tag_number tag) }
    {
        match self.last {
            None => tag == Tag::Kind,
            Some(last) if self.kind == ROWS_KIND => row_follows(last, tag)
                || step_follows(self.steps, tag),
            Some(Tag::Kind) => tag == Tag::Capacity,
            Some(Tag::Capacity) => tag == Tag::Sizes,
            Some(last) => list_follows(self.kind, last, tag) || step_follows(self.steps, tag),
        }
    }

    // Whether a tag may have this length.
    #[tactic(auto, unfolding(crate::specs::Grammar::length_right))]
    fn length_right(self, tag: Tag, n: usize) -> bool
        ensures { result ≡ length_right self.sizes (tag_number tag) n }
    {
        match tag {
            Tag::Kind => n == 1,
            Tag::Capacity => n == 4,
            Tag::Sizes => n % 4 == 0 && n <= MOST_LIST_BYTES,
            Tag::Family => n == 9,
            Tag::Table => n % 4 == 0 && table_length_right(n),
            Tag::Row => n % 4 == 0 && 4 <= n,
            Tag::Counts => n == 2 * self.sizes,
            Tag::Blocks => n % 2 == 0,
        }
    }

    // The tag of the next field, or its refusal 13, 14 or 15.
    #[tactic(auto, unfolding(crate::specs::Reading::header_refusal))]
    pub(crate) fn accept(self, header: Option<Header>) -> Result<Tag, Refusal>
        ensures refusal { number_in result
            ≡ header_refusal header self.kind (last_number self.last) self.steps self.sizes }
        ensures tag { TagOf header result }
    {
        let Some(Header { tag, length }) = header else {
            return Err(Refusal::FieldPastEnd);
        };
        let tag = Tag::try_from(tag)?;
        if !self.may_follow(tag) {
            return Err(Refusal::TagOutOfPlace);
        }
        if !self.length_right(tag, length) {
            return Err(Refusal::FieldLength);
        }
        Ok(tag)
    }
}
