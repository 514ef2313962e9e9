// The arrivals of a show, a row for each.

// An arrival, behind the number of its call.
#[derive(Clone, Copy, Default)]
pub(crate) struct Row {
    pub(crate) call: u32,
    pub(crate) input: u32,
    pub(crate) output: u32,
    pub(crate) flow: u32,
    pub(crate) rank: u32,
    pub(crate) tag: u32,
}

// A table of rows: the number of a call, counted from 0, then input, output, flow, rank and tag.
macro_rules! rows {
    ($([$call:expr, $input:expr, $output:expr, $flow:expr, $rank:expr, $tag:expr]),* $(,)?) => {
        [$(Row {
            call: $call,
            input: $input,
            output: $output,
            flow: $flow,
            rank: $rank,
            tag: $tag,
        }),*]
    };
}

pub(crate) use rows;

impl Row {
    // The numbers of the arrival's record, as a switch is lent them.
    pub(crate) fn record(&self) -> [[u8; 4]; 5] {
        [self.input, self.output, self.flow, self.rank, self.tag].map(u32::to_le_bytes)
    }
}

// The rows of a call, which stand together.
pub(crate) fn rows_of(rows: &[Row], call: u32) -> &[Row] {
    let start = rows.iter().position(|row| row.call == call);
    let rows = &rows[start.unwrap_or(rows.len())..];
    let end = rows.iter().position(|row| row.call != call);
    &rows[..end.unwrap_or(rows.len())]
}
