//! Why a program is refused, or is not strict or not determinate, told to people.
//!
//! `explain` tells of the bytes of a program's text why they are refused: the line with its number,
//! a mark under the byte from which on no allowed line goes on, what was expected there, what
//! stands there, and the cause; or the rule that the program breaks, where, and why. `refused_at`
//! and `line_left` find the byte: `lists` and `fronts` have the longest front of a line that begins
//! some line of a sort, and `text_place` and `scanning` which sorts may stand where. `expected` says
//! what may stand after a front, and `telling_expected`, `accidents`, `line_causes`,
//! `rule_sentences`, `rule_causes` and `telling_breach` have the sentences.
//!
//! `explain_meeting` tells of a program that is allowed and not determinate what meets where, and
//! `explain_loose` of one that is not strict which rule of strict programs it breaks, and how. `arcs`
//! finds the destinations that lead to a port, `rounds` what goes round within a turn, and
//! `tests_of_loops` what a `next` or a `last` depends on; `telling_meeting`, `telling_loose` and
//! `telling_sources` have the sentences.
#![tactic(auto)]

mod accidents;
mod arcs;
mod breaking;
mod expected;
mod explaining;
mod fronts;
mod line_causes;
mod lines;
mod lists;
mod rounds;
mod rule_causes;
mod rule_sentences;
mod scanning;
mod source;
mod spot;
mod telling;
mod telling_breach;
mod telling_expected;
mod telling_loose;
mod telling_meeting;
mod telling_sources;
mod tests_of_loops;
mod text_place;
mod words;

pub use explaining::explain;
pub use line_causes::Refused;
pub use lines::refused_at;
pub use source::show_marked;
pub use telling_loose::explain_loose;
pub use telling_meeting::explain_meeting;
pub use text_place::{TextPlace, line_left};
