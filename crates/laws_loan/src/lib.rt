//! That the machines of the loan channel keep their promises, whatever the order of the turns. There is no code here: the
//! lemmas are cited by the answers of `machine`.
#![tactic(auto)]
