//! Corrections of a list: the new list of an old one with filings replaced, taken out or put in, and behind it a record of each; and
//! the text that tells what becomes of it. And what differs between two lists.
#![tactic(auto)]

mod amending;
mod comparing;
mod correction;
mod gathered;
mod laws;
mod lines;
mod list;
mod plan;
mod row;

pub use amending::Amended;
pub use comparing::changes;
pub use correction::{Change, Correction, CorrectionRow, Grounds, Verb};
pub use gathered::{FieldsForm, FieldsSaid, Gathered, corrections_of};
pub use laws::{keys_stay, nothing_corrected, others_stay, places_stay, whole_where_legal};
pub use list::amend_list;
pub use plan::{Amendment, plan_amendment};
pub use row::correction_of_row;
