// The tags of fields, by their numbers in a job's bytes.
ghost use Rattle.fields.specs.Tags.{TagFrom};

use refusals::Refusal;

#[derive(Clone, Copy, Debug, PartialEq, Eq)]
pub(crate) enum Tag {
    Kind = 1,
    Capacity = 2,
    Sizes = 3,
    Family = 4,
    Table = 5,
    Row = 6,
    Counts = 7,
    Blocks = 8,
}

impl TryFrom<u8> for Tag {
    type Error = Refusal;

    ghost try_from_gives = { TagFrom };

    #[tactic(auto)]
    fn try_from(number: u8) -> Result<Tag, Refusal> {
        match number {
            1 => Ok(Tag::Kind),
            2 => Ok(Tag::Capacity),
            3 => Ok(Tag::Sizes),
            4 => Ok(Tag::Family),
            5 => Ok(Tag::Table),
            6 => Ok(Tag::Row),
            7 => Ok(Tag::Counts),
            8 => Ok(Tag::Blocks),
            _ => Err(Refusal::TagOutOfPlace),
        }
    }
}
