// Why a text wasn't written.

/// Why a report wasn't written.
#[derive(Clone, Copy, PartialEq, Eq)]
pub enum ReportError {
    /// The sink failed.
    Failed,
    /// There was no memory. Nothing was written.
    Memory,
}
