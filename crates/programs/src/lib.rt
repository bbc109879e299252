// The bodies of the command-line programs: each answers its status.
#![tactic(auto)]

pub mod answer;
pub mod arguments;
pub mod cardcheck;
pub mod cardcompare;
pub mod cardconvert;
pub mod cardlist;
pub mod cardlook;
pub mod cardrestore;
pub mod cardsheets;
pub mod cardstarts;
pub mod cardwrite;
pub mod files;
pub mod help;
pub mod input;
pub mod intake;
pub mod message;
pub mod output;
pub mod seek;
pub mod status;
pub mod stream;
pub mod turn;
