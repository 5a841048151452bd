// The register pane: its rows, and what a call's answer says.
#![tactic(auto)]

pub mod answers;
pub mod rows;
