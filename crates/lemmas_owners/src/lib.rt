//! Lemmas that laws of the robust set and of the container share: on lists, counts and words, and on what held at moments of a call.
#![tactic(auto)]
