// Why bytes could not be read.

/// Why bytes could not be read.
#[derive(Clone, Copy, PartialEq, Eq)]
pub enum Stop {
    /// They end within what is read, and more can make it whole.
    Cut,
    /// Nothing that begins so is what is read.
    Bad,
}
