// The calls that the benchmark times: each makes a stack over borrowed bytes, and reads or writes its first lines in one loop.
#![tactic(auto)]

mod lines;
mod opened;
mod stacks;
