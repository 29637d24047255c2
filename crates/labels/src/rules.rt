// What a product chooses, the same for all its calls.
ghost use Rattle.std.specs.Prelude.{◌≡◌};
ghost use Rattle.labels.specs.Rules.{newer};

// The edition of ISO 14819-1 by which content is read and written: that of 2021, or the one before it, which has no sub-labels.
#[derive(Clone, Copy)]
pub enum Edition {
    Older,
    Newer,
}

#[derive(Clone, Copy)]
pub struct Rules {
    pub edition: Edition,
}

impl Rules {
    // The rules of a product that asks for nothing else: the newer edition.
    pub fn new() -> Self
        ensures { result ≡ newer }
    {
        Rules {
            edition: Edition::Newer,
        }
    }
}
