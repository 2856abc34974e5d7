// The record of a job's parts, filled field by field.
ghost use Rattle.std.specs.Prelude.{◌≡◌, [], ℕ, ◌+◌, ◌<◌, length, get_or, set};
ghost use Rattle.fields.specs.Tags.{tag_number};
ghost use Rattle.fields.specs.Grammar.{most_steps};
ghost use Rattle.fields.specs.Bytes.{word, words};
ghost use Rattle.fields.specs.Parts.{on_family, on_table};
ghost use Rattle.fields.specs.Within.{TableWithin, StepWithin};
ghost use Rattle.fields.specs.Record.{step_in, PartsOf, Fillable, Filled};

use crate::tag::Tag;
use crate::{JobParts, JobStep, JobSteps, MOST_STEPS, StepFunction, words};

#[tactic(auto, unfolding(crate::specs::Parts::value_of, crate::specs::Parts::blocks_there, crate::specs::Parts::job_kind, crate::specs::Parts::job_capacity, crate::specs::Parts::job_sizes, crate::specs::Parts::chosen, crate::specs::Parts::job_steps, crate::specs::Parts::job_rows, crate::specs::Parts::coefficient_count, crate::specs::Record::steps_in, crate::specs::Bytes::halfword, crate::specs::Bytes::word, crate::specs::Bytes::words, crate::specs::Bytes::numbers_from))]
pub(crate) fn no_parts<'a>() -> JobParts<'a>
    ensures { PartsOf [] result }
{
    JobParts {
        kind: 0,
        capacity: 0,
        sizes: &[],
        counts: &[],
        blocks: None,
        steps: JobSteps {
            items: [table_step(&[]); MOST_STEPS],
            count: 0,
        },
        rows: 0,
        coefficients: 0,
    }
}

#[tactic(auto, unfolding(crate::specs::Record::function_in))]
fn table_step(entries: &[u8]) -> JobStep<'_>
    ensures step { step_in result ≡ on_table (words entries.now) }
    ensures within { TableWithin entries.now → StepWithin result }
{
    JobStep {
        function: StepFunction::Table(entries),
    }
}

#[tactic(auto, unfolding(crate::specs::Record::function_in))]
fn family_step<'a>(value: &[u8]) -> JobStep<'a>
    requires { length value.now ≡ 9 }
    ensures step { step_in result ≡ on_family (get_or value.now 0 0) (word value.now 1) (word value.now 5) }
    ensures within { StepWithin result }
{
    JobStep {
        function: StepFunction::Family {
            family: value[0],
            p: words::word_at(value, 1),
            q: words::word_at(value, 5),
        },
    }
}

fn with_step<'a>(mut steps: JobSteps<'a>, step: JobStep<'a>) -> JobSteps<'a>
    requires { (steps.count < most_steps) × StepWithin step }
    ensures items { result.items ≡ set steps.entry.items steps.entry.count step.entry }
    ensures count { result.count ≡ steps.entry.count + 1 }
{
    steps.items[steps.count] = step;
    steps.count += 1;
    steps
}

// The parts with one field more.
pub(crate) fn with_field<'a>(parts: JobParts<'a>, tag: Tag, value: &'a [u8]) -> JobParts<'a>
    requires { Fillable parts (tag_number tag) (length value.now) }
    ensures { Filled parts.entry (tag_number tag) value.now result }
{
    match tag {
        Tag::Kind => JobParts {
            kind: value[0],
            ..parts
        },
        Tag::Capacity => JobParts {
            capacity: words::word_at(value, 0),
            ..parts
        },
        Tag::Sizes => JobParts {
            sizes: value,
            ..parts
        },
        Tag::Family => JobParts {
            steps: with_step(parts.steps, family_step(value)),
            ..parts
        },
        Tag::Row => JobParts {
            rows: parts.rows + 1,
            coefficients: parts.coefficients + (value.len() / 4 - 1),
            ..parts
        },
        Tag::Counts => JobParts {
            counts: value,
            ..parts
        },
        Tag::Blocks => JobParts {
            blocks: Some(value),
            ..parts
        },
        Tag::Table => JobParts {
            steps: with_step(parts.steps, table_step(value)),
            ..parts
        },
    }
}
