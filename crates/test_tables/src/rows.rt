//! Columns of rows, and words of columns.

/// The column after so many others, "" where there are no more.
pub fn column(row: &str, index: usize) -> &str {
    match row.split('|').nth(index) {
        Some(text) => text.trim(),
        None => "",
    }
}

/// The first five columns of a row, "" for those that it doesn't have.
pub fn columns_of(row: &str) -> [&str; 5] {
    let mut columns = [""; 5];
    for (i, column) in row.split('|').enumerate() {
        if let Some(place) = columns.get_mut(i) {
            *place = column.trim();
        }
    }
    columns
}

/// The word after so many others; none where there are no more.
pub fn word_if(text: &str, index: usize) -> Option<&str> {
    text.split_ascii_whitespace().nth(index)
}

/// The word after so many others, "" where there are no more.
pub fn word(text: &str, index: usize) -> &str {
    word_if(text, index).unwrap_or("")
}
