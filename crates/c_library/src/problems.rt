//! Why a call does nothing, and how C gets to know it.

ghost use Rattle.std.specs.Prelude.{◌≡◌};
ghost use Rattle.refusal.specs.Reports.{report};
ghost use Rattle.c_library.specs.Problems.{failure_problem, result_response};
ghost use Rattle.c_library.specs.Responses.{number_of_part, response, three_numbers};
ghost use Rattle.c_library.specs.declared.problems.Problem.TheVariants.{Refused as RefusedCase, NoKind as NoKindCase};

use crate::refusal_records::RefusalRecord;
use evaluation::{Failure, UnknownKind};
use refusal::{Part, Refusal};

/// Why a call does nothing.
#[derive(Clone, Copy)]
pub(crate) enum Problem {
    /// Something that was given is refused.
    Refused(Refusal),
    /// No kind has the number.
    NoKind,
    /// There is not enough memory.
    NoMemory,
}

// `Failure` of `evaluation` has conversions of this shape: each error type says for itself which case it makes.

impl From<Refusal> for Problem {
    ghost from_gives = { λ why r. r ≡ RefusedCase why };

    fn from(why: Refusal) -> Problem {
        Problem::Refused(why)
    }
}

impl From<Failure> for Problem {
    ghost from_gives = { λ failure r. r ≡ failure_problem failure };

    fn from(failure: Failure) -> Problem {
        match failure {
            Failure::Refused(why) => Problem::Refused(why),
            Failure::NoMemory => Problem::NoMemory,
        }
    }
}

impl From<UnknownKind> for Problem {
    ghost from_gives = { λ _ r. r ≡ NoKindCase };

    fn from(_unknown: UnknownKind) -> Problem {
        Problem::NoKind
    }
}

/// What a call answers, by the number that C gets.
#[derive(Clone, Copy)]
enum Status {
    Accepted = 0,
    Refused = 1,
    NoKind = 2,
    NoMemory = 3,
}

/// The number of a part, by which C knows it.
fn part_number(part: Part) -> u64
    ensures { result ≡ number_of_part part }
{
    match part {
        Part::Graph => 1,
        Part::Sheet => 2,
        Part::Word => 3,
        Part::Recipe => 4,
        Part::Reading => 5,
    }
}

impl From<Refusal> for RefusalRecord {
    ghost from_gives = { λ why r. r ≡ three_numbers (report why).number (report why).place (number_of_part (report why).part) };

    fn from(why: Refusal) -> RefusalRecord {
        RefusalRecord {
            number: u64::from(why.number()),
            place: why.place() as u64,
            part: part_number(why.part()),
        }
    }
}

/// The record where nothing is refused.
const NO_REFUSAL: RefusalRecord = RefusalRecord {
    number: 0,
    place: 0,
    part: 0,
};

/// Sets the place of the refusal, and answers the number of the status.
pub(crate) fn respond(res: Result<(), Problem>, place: &mut RefusalRecord) -> u32
    ensures { response result place.new ≡ result_response res }
{
    let (status, refusal) = match res {
        Ok(()) => (Status::Accepted, NO_REFUSAL),
        Err(Problem::Refused(why)) => (Status::Refused, RefusalRecord::from(why)),
        Err(Problem::NoKind) => (Status::NoKind, NO_REFUSAL),
        Err(Problem::NoMemory) => (Status::NoMemory, NO_REFUSAL),
    };
    *place = refusal;
    status as u32
}
