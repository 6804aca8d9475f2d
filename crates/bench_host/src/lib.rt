// The calls of the benchmark: bench/bench_host.h declares them. They are for measuring alone, and no part of what a host is offered.
#![tactic(auto)]

mod codes;
mod cuts;
mod reading;
mod rounds;
