//! Places in source files.

/// Where a token begins: the number of its file, its line, and its column in bytes.
///
/// Lines and columns count from 1.
#[derive(Clone, Copy, Debug, PartialEq, Eq)]
pub struct Place {
    pub file: u32,
    pub line: u32,
    pub column: u32,
}
