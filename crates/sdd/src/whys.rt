//! Why a call is refused, in numbers.
ghost use Rattle.std.specs.Prelude.{◌≡◌, ◌≤◌};
ghost use Rattle.paper.specs.Refusals.{value_of};
ghost use Rattle.sdd.specs.Face.{none, why_of, taken_c, TakenSmall};

use super::face::Why;
use paper::refusal::Refusal;

pub fn accepted() -> Why
    ensures { result ≡ none }
{
    Why {
        number: 0,
        value: 0,
    }
}

// No slot is above 4,096 and no reason above 6.
pub fn why(r: Refusal) -> Why
    requires { value_of r ≤ 4096 }
    ensures { result ≡ why_of r }
{
    let number = r.number();
    let value = r.value();
    Why {
        number: number as u32,
        value: value as u32,
    }
}

// TakenSmall is of each answer where it becomes numbers, and of no type.
pub fn taken(t: Result<(), Refusal>) -> Why
    requires { TakenSmall t }
    ensures { result ≡ taken_c t }
{
    match t {
        Ok(()) => accepted(),
        Err(r) => why(r),
    }
}
