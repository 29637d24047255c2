// Labels, sub-labels and the codes of telephone references: the one table of their widths and of what follows them.
#![tactic(auto)]

pub mod row;
pub mod rules;
pub mod stage;
