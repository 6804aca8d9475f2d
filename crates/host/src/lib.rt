// The calls for a host in C: include/yolanthuk.h declares them.
#![tactic(auto)]

mod fault;
mod shapes;
mod solving;
#[cfg(test)]
mod tests;
