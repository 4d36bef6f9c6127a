//! Texts of chains that were given, which are kept for later queries.
ghost use Rattle.std.specs.Prelude.{◌≡◌, ◌==◌};
ghost use Rattle.std.specs.List.{position};

/// The text of a chain that was given, and the part of the floor in which its start is.
#[derive(Drop)]
pub struct KeptRing {
    pub part: u32,
    pub text: Vec<u8>,
}

/// The number of the text that is kept of a part.
pub fn kept_at(kept: &[KeptRing], part: u32) -> Option<usize>
    ensures { result ≡ position (λ ring. ring.part == part) kept.now }
{
    kept.iter().position(|ring| ring.part == part)
}
