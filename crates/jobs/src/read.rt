// A job that was read: its bytes, its parts and its kind, which go together. The field `read` keeps that the
// parts are those of the bytes, but not how it was shown (`∥ .. ∥₁`): of a type's invariant there may be one
// proof only. `proofs/Taken.antt` has the statement itself from it.
ghost use Rattle.std.specs.Prelude.{◌≡◌};
ghost use Rattle.fields.specs.Record.{JobRead};
ghost use Rattle.jobs.specs.Kinds.{kind_number};

use crate::kind::{JobKind, Operation};
use fields::JobParts;
use refusals::Refusal;

#[derive(Clone, Copy)]
pub struct ReadJob<'a> {
    pub bytes: &'a [u8],
    pub parts: JobParts<'a>,
    pub kind: JobKind,
    pub(crate) ghost read: { ∥ JobRead bytes.now parts ∥₁ },
    pub(crate) ghost kind_is: { kind_number kind ≡ parts.kind },
}

impl<'a> ReadJob<'a> {
    ghost use Rattle.jobs.specs.Read.{JobTaken};

    // The fields of a job, and then its kind: 13 to 15, and then 16.
    pub(crate) fn read(operation: Operation, bytes: &'a [u8]) -> Result<ReadJob<'a>, Refusal>
        ensures { JobTaken operation bytes.now result }
    {
        let parts = fields::read_job(bytes)?;
        let kind = operation.kind(parts.kind)?;
        Ok(ReadJob { bytes, parts, kind })
    }
}
