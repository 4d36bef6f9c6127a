/// What a watcher answers to a pair: whether it wants to be told more.
#[derive(Clone, Copy, Debug, PartialEq, Eq)]
pub enum Stay {
    More,
    Done,
}
