// The monitor's commands on a machine's parts, without input and output: what a line does to registers, bus and storage, bus cycles, and
// the lines to show.
//
// The image, the bus and the storage are handed along one by one: a struct that lends all three wants a clause more in each contract, that
// it still lends the same three afterwards, and is no plainer.
#![tactic(auto)]

pub mod apply;
pub mod registers;
pub mod session;
pub mod step;
