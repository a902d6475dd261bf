//! Laws of the scripts that are made of the calls that are built: what they ask for, that their text is the only one, that its
//! answers, weight distributions and nearest words are true and its certificates accepted, and what sessions that follow one another
//! over the slots of a vault print.
//!
//! Each function proves what its clauses say, and does nothing when it is run.
#![tactic(auto)]

mod laws;

pub use laws::{
    chains_print_the_text, large_budgets_answer_exactly, needs_are_codes, one_text,
    printed_answers_are_true, printed_distributions_are_true, printed_forms_are_accepted,
    printed_nearest_words_are_true, scripts_are_ground, scripts_print_accepted_certificates,
    stored_slots_hold_true_checkpoints,
};
