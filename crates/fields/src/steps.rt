// The steps of a job.
ghost use Rattle.std.specs.Prelude.{◌≡◌, ℕ, ◌<◌, ◌≤◌, length};
ghost use Rattle.fields.specs.Grammar.{most_steps};
ghost use Rattle.fields.specs.Within.{StepAt};

use crate::MOST_STEPS;

// What a step applies: the function of a family by its parameters, or a table by the bytes of its entries. The
// family is a byte, which the project's scope has matched.
#[derive(Clone, Copy)]
pub enum StepFunction<'a> {
    Family { family: u8, p: u64, q: u64 },
    Table(&'a [u8]),
}

// A step of a job. It is a struct, since the project's scope has an array of eight step structs.
#[derive(Clone, Copy)]
pub struct JobStep<'a> {
    pub function: StepFunction<'a>,
}

// The steps of one job, by value as the scope names it: eight places and their number.
#[derive(Clone, Copy)]
pub struct JobSteps<'a> {
    pub items: [JobStep<'a>; MOST_STEPS],
    pub count: usize,
    pub ghost places: { length items ≡ most_steps },
    pub ghost few: { count ≤ most_steps },
    pub ghost each: { (i : ℕ) → i < count → StepAt items i },
}
