//! What a round answers.
use crate::job::Job;

/// How an edit ended.
#[derive(Drop)]
pub enum EditEnd<J: Job> {
    /// Its entry was published, with this version.
    Accepted { version: u32 },
    Refused(J::Refused),
}

/// An answer, and the version of the entry that gave it.
#[derive(Drop)]
pub struct Said<J: Job> {
    pub version: u32,
    pub answer: J::Answer,
}

/// How each edit ended, and what each lane answered, in order.
#[derive(Drop)]
pub struct RoundEnd<J: Job> {
    pub edits: Vec<EditEnd<J>>,
    pub lanes: Vec<Vec<Said<J>>>,
}
