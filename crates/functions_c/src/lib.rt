// The image operation for C.
#![tactic(auto)]

ghost use Rattle.std.specs.Prelude.{◌≡◌};
ghost use Rattle.functions.specs.Image.{image_answer};

use functions::ImageAnswer;

#[unsafe(no_mangle)]
pub extern "C" fn windowfloor_image(
    capacity: u64,
    family: u8,
    p: u64,
    q: u64,
    x: u64,
) -> ImageAnswer
    ensures { result ≡ image_answer capacity family p q x }
{
    functions::windowfloor_image(capacity, family, p, q, x)
}
