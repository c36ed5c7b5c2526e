//! The grammar of a play: reading a scene file with its edit script.
#![tactic(auto)]

mod commands;
mod early;
mod edits;
mod header;
mod making;
mod numbers;
mod parser;
mod places;
mod play;
mod reader;
mod reading;
mod refusal;
mod sections;
mod spelling;
mod words;

pub use commands::{Command, Form};
pub use making::{app_step_of, base_step_of, tri_of, u8_at, u16_at};
pub use parser::{one_reading, parse, parse_beside};
pub use places::{Place, Spot, Version, number};
pub use play::Play;
pub use reader::MAX_LINE_LEN;
pub use reading::read_line;
pub use refusal::{LineError, ParseError, Refusal, Why};
pub use spelling::append_edit;
pub use words::{cut, first_word};
