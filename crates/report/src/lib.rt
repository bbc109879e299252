// Day sheets on cards: two sheets of the same day compared, and the starts in a window of the day counted over a card.
#![tactic(auto)]

pub mod compare;
pub mod day;
pub mod quarter;
pub mod row;
pub mod table;
pub mod window;
