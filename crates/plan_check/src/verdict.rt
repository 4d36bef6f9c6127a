use crate::fault::CheckFault;

/// What a check answers.
#[derive(Clone, Copy, Debug, PartialEq, Eq)]
pub enum Verdict {
    /// The certificate is accepted.
    Valid,
    /// It has this fault first.
    Invalid(CheckFault),
}
