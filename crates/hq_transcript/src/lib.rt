//! What a statement may answer and what a session writes, as the log, the inputs and nothing else say it: definitions
//! and their laws. Nothing here runs.
#![tactic(auto)]

mod binder;
mod entries;
mod histories;
mod laws;
mod scripts;
mod why;

pub use binder::statements_are_bound_as_the_binder_says;
pub use entries::{entries_settle_replies, errors_publish_nothing, the_same_found_does_the_same};
pub use histories::{deposits_stay_own, histories_decide, histories_stand};
pub use laws::{
    answers_begin, answers_grow, answers_stay, looks_see_what_stood_before, replays_grow,
    replays_have_the_marks_and_tables, servings_stay, transcripts_stay,
};
pub use scripts::{a_filled_table, a_snapshot, an_added_column};
pub use why::EndWhy;
