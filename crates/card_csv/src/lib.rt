// Day sheets as CSV: the text of a card's day sheets, and a line of such a text read and made a record.
#![tactic(auto)]

pub mod columns;
pub mod fields;
pub mod headers;
pub mod lines;
pub mod making;
pub mod reader;
pub mod records;

// What has been counted of a card: the number of the next slot, day sheets, records that are none, and blank slots.
#[derive(Clone, Copy)]
pub struct Counts {
    pub next: u64,
    pub sheets: u64,
    pub others: u64,
    pub blanks: u64,
}

// Which columns a header names: all, those without slot and changed, or others.
#[derive(Clone, Copy, PartialEq, Eq)]
pub enum Header {
    Full,
    Short,
    Other,
}

// What is wrong with a line: the number of its columns; a column that is no number; a date that does not exist; a pump or a count above 127.
#[derive(Clone, Copy, PartialEq, Eq)]
pub enum Fault {
    Columns,
    Number,
    Date,
    Pump,
    Count,
}

// What is wrong with a text: the first line is no header; a line is no sheet; or a line has no end where every line has one.
#[derive(Clone, Copy, PartialEq, Eq)]
pub enum TextFault {
    NoHeader,
    Wrong(Fault),
    TooLong,
}

// Which columns the header names, how many lines were taken, a refused one among them, and what is wrong with the text, if anything is.
#[derive(Clone, Copy)]
pub struct TextState {
    pub full: bool,
    pub lines: u64,
    pub verdict: Result<(), TextFault>,
}

// How the text stands behind the lines that were taken, and the bytes of the text that they have.
#[derive(Clone, Copy)]
pub struct Made {
    pub state: TextState,
    pub taken: usize,
}
