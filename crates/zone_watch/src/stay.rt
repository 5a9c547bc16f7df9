/// What a watcher answers to a notice.
#[derive(Clone, Copy, Debug)]
pub enum Stay {
    /// It wants the next notice too.
    Keep,
    /// It wants no more, and is taken out of the list.
    Leave,
}
