//! Laws are functions that do nothing: each can be called.

use atomic_bcast::{CmdRoot, atomic_laws, base_is_least, one_log, says_commands};
use binary_consensus::{box_laws, one_bit};
use bracha_validation::{rules_by_counts, set_is_picked, set_of_votes};
use direct_atomic::{direct_log, direct_words};
use layer_api::inner_runs;
use multivalued::{multi_laws, one_decision};
use ordered_rounds::{one_log_of_rounds, rounds_agree, word_laws_of_rounds};
use reliable_bcast::Rb;
use ritas_core::{delivered_within, entry_laws, history_laws, kinds_fit, new_is_due, verdict_laws};
use vector_consensus::{one_vector, vector_laws};

#[test]
fn laws_of_layers_can_be_called(_rt: HostRuntime) {
    inner_runs();
    set_of_votes();
    set_is_picked();
    rules_by_counts();
    one_bit();
    box_laws();
    one_decision();
    multi_laws();
    one_vector();
    vector_laws();
    one_log_of_rounds();
    rounds_agree();
    word_laws_of_rounds();
    one_log();
    atomic_laws();
    base_is_least();
    says_commands();
    direct_log();
    direct_words();
}

#[test]
fn laws_of_a_core_can_be_called(_rt: HostRuntime) {
    new_is_due::<CmdRoot, Rb>();
    delivered_within::<CmdRoot, Rb>();
    history_laws();
    entry_laws();
    verdict_laws();
    kinds_fit();
}
