// This crate has definitions and theorems only: read specs/.
#![tactic(auto)]
