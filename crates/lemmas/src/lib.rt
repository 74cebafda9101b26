//! Lemmas that name no family: on tests, on turns that may be taken, and on fresh and open runs.
#![tactic(auto)]
