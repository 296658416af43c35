// What an edit changes.

/// An edit of the tables or of the program.
#[derive(Drop)]
pub enum Edit<'a> {
    /// A row is put into a table, in the place of the one of its number.
    Put {
        table: &'a str,
        row: i64,
        values: Vec<i64>,
    },
    /// A row is deleted from a table.
    Delete {
        table: &'a str,
        row: i64,
    },
    /// The procedures of a text are put into the program.
    Define(&'a [u8]),
}
