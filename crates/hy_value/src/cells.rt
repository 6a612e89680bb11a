//! The cells of a row that is kept.

/// A value of a row without its text.
#[derive(Clone, Copy, Debug, Default)]
pub enum Cell {
    /// No value.
    #[default]
    Null,
    /// A number.
    Int(i64),
    /// The text of the row that has this number.
    Text(usize),
}
