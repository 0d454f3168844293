// Where something stands in a sheet.

/// A line and a column, both counted from 1. Columns count bytes.
#[derive(Clone, Copy, PartialEq, Eq, Debug)]
pub struct Place {
    pub line: u32,
    pub column: u32,
}
