// The seven families of dual-feasible functions: the judgement of a family step, the image of a
// size, and under an accepted step a list of sizes mapped, or its images summed.
#![tactic(auto)]

mod copies;
mod formula;
mod judge;
mod step;
mod steps;

ghost use Rattle.std.specs.Prelude.{◌≡◌, ◌+◌, ◌-◌, ◌*◌, ◌^◌, ◌<◌, IfOk, cond};
ghost use Rattle.refusals.specs.Number.{number_in, number_of};
ghost use Rattle.functions.specs.Words.{capacity_fits};
ghost use Rattle.functions.specs.Families.{◌up◌};
ghost use Rattle.functions.specs.Image.{family_refusal, image_refusal, image_answer, refused_image};

pub use crate::step::FamilyStep;
use crate::steps::PreparedStep;
use refusals::Refusal;

// The greatest capacity, parameter, scale and table entry.
pub const LIMIT: u64 = 4_000_000_000;

// The answer to an image, as C reads it: the number that refuses it, or 0 with the image and the scale.
#[repr(C)]
#[derive(Clone, Copy)]
pub struct ImageAnswer {
    pub number: u64,
    pub image: u64,
    pub scale: u64,
}

// The quotient rounded up, without a test, as the project's rule has it: `div_ceil` tests the remainder.
// Every quotient that is rounded up is computed here.
pub fn round_up(a: u64, b: u64) -> u64
    requires { (0 < b) × (a + (b - 1) < 2 ^ 64) }
    ensures { result ≡ (a up b) }
{
    (a + (b - 1)) / b
}

#[tactic(auto, unfolding(crate::specs::Words::capacity_fits))]
pub fn capacity_fits(capacity: u64) -> bool
    ensures { result ≡ capacity_fits capacity }
{
    (1..=LIMIT).contains(&capacity)
}

// Refusal 1.
pub fn accept_capacity(capacity: u64) -> Result<(), Refusal>
    ensures { number_in result ≡ cond (capacity_fits capacity) 0 1 }
{
    if !capacity_fits(capacity) {
        return Err(Refusal::Capacity);
    }
    Ok(())
}

#[tactic(auto, using(crate::proofs::Legal::capacity_bounds, crate::proofs::Legal::family_bounds), unfolding(crate::specs::Image::family_refusal))]
pub fn judge_family(capacity: u64, family: u8, p: u64, q: u64) -> Result<FamilyStep, Refusal>
    ensures number { number_in result ≡ family_refusal capacity family p q }
    ensures step { IfOk result (λ s. (s.capacity ≡ capacity) × (s.family ≡ family) × (s.p ≡ p) × (s.q ≡ q)) }
{
    accept_capacity(capacity)?;
    if !judge::is_family(family) {
        return Err(Refusal::Family);
    }
    if !judge::is_legal(capacity, family, p, q) {
        return Err(Refusal::Parameters);
    }
    let scale = judge::scale(capacity, family, p, q);
    if LIMIT < scale {
        return Err(Refusal::ScaleOverLimit);
    }
    Ok(FamilyStep {
        capacity,
        p,
        q,
        scale,
        family,
    })
}

impl From<Refusal> for ImageAnswer {
    ghost from_gives = { λ refusal answer. answer ≡ refused_image (number_of refusal) };

    fn from(refusal: Refusal) -> ImageAnswer {
        ImageAnswer {
            number: u64::from(refusal),
            image: 0,
            scale: 0,
        }
    }
}

// Its `Ok` is C's answer with number 0: a struct of the same image and scale would be no plainer.
fn accepted_image(capacity: u64, family: u8, p: u64, q: u64, x: u64) -> Result<ImageAnswer, Refusal>
    ensures number { number_in result ≡ image_refusal capacity family p q x }
    ensures answer { IfOk result (λ answer. answer ≡ image_answer capacity family p q x) }
{
    let step = judge_family(capacity, family, p, q)?;
    if capacity < x {
        return Err(Refusal::SizeOverCapacity);
    }
    Ok(ImageAnswer {
        number: 0,
        image: PreparedStep::of(step).image(x),
        scale: step.scale,
    })
}

fn answer_for(capacity: u64, family: u8, p: u64, q: u64, x: u64) -> ImageAnswer
    ensures { result ≡ image_answer capacity family p q x }
{
    accepted_image(capacity, family, p, q, x).unwrap_or_else(ImageAnswer::from)
}

// The family is chosen once: in each arm it is a constant, and what depends on it is folded.
pub fn windowfloor_image(capacity: u64, family: u8, p: u64, q: u64, x: u64) -> ImageAnswer
    ensures { result ≡ image_answer capacity family p q x }
{
    match family {
        1 => answer_for(capacity, 1, p, q, x),
        2 => answer_for(capacity, 2, p, q, x),
        3 => answer_for(capacity, 3, p, q, x),
        4 => answer_for(capacity, 4, p, q, x),
        5 => answer_for(capacity, 5, p, q, x),
        6 => answer_for(capacity, 6, p, q, x),
        7 => answer_for(capacity, 7, p, q, x),
        _ => answer_for(capacity, family, p, q, x),
    }
}
