//! The theory of the judge, without code: what faults say of a history, the printed order, witnesses, and what a cut keeps.
#![tactic(auto)]

mod fault_laws;
mod order_laws;
mod process_laws;
mod version_laws;
mod window_laws;
mod witness_laws;

pub use fault_laws::{
    conditions_by_faults, faults_join, faults_rise, monotone_by_stale_views,
    monotone_without_read_fault, regular_by_local_faults, updates_are_alone,
};
pub use order_laws::{
    atomic_is_monotone, legal_orders_grow, printed_order_is_alone, shrinking_lemma,
    sorted_keys_give_the_order,
};
pub use process_laws::processes_do_not_matter;
pub use version_laws::{
    cut_events_keep_atomic, cutting_keeps_atomic, histories_are_ordered, ordered_by_faults,
    ordered_faults_have_witnesses, ordered_faults_rise, ordered_printed_order_is_alone,
    ordered_shrinking_lemma, versions_keep_atomic,
};
pub use window_laws::{beginnings_may_be_empty, windows_join, windows_may_be_renumbered};
pub use witness_laws::{atomic_without_witness, choices_keep_calls, faults_have_witnesses};
