// What a command makes on its way.
ghost use Rattle.std.specs.Prelude.{◌≡◌};

use c65_code::Code;
use c65_mach::Image;

/// What a call made on its way.
#[derive(Drop)]
pub struct Made {
    /// The code that was linked.
    pub code: Option<Code>,
    /// The image that was linked, or the one that was read.
    pub image: Option<Image>,
}

impl Made {
    /// Nothing yet.
    pub fn nothing() -> Made
        ensures code { result.code ≡ None }
        ensures image { result.image ≡ None }
    {
        Made {
            code: None,
            image: None,
        }
    }
}
