//! Tests of whole runs, on threads and on one thread, each with the report that it must give, or with why there is none; of systems
//! that a test drives step by step; and of the program (`program`).
#![tactic(auto)]

#[cfg(test)]
mod boxed;
#[cfg(test)]
mod broken_off;
#[cfg(test)]
mod by_hand;
#[cfg(test)]
mod call_order;
#[cfg(test)]
mod closing;
#[cfg(test)]
mod crowd;
#[cfg(test)]
mod ended;
#[cfg(test)]
mod family;
#[cfg(test)]
mod farewell;
#[cfg(test)]
mod handle_call;
#[cfg(test)]
mod kept_turns;
#[cfg(test)]
mod limited;
#[cfg(test)]
mod meeting;
#[cfg(test)]
mod million;
#[cfg(test)]
mod new_system;
#[cfg(test)]
mod numbers;
#[cfg(test)]
mod ordered;
#[cfg(test)]
mod planned;
#[cfg(test)]
mod program;
#[cfg(test)]
mod reading;
#[cfg(test)]
mod refusals;
#[cfg(test)]
mod refused;
#[cfg(test)]
mod refused_run;
#[cfg(test)]
mod retried;
#[cfg(test)]
mod seen;
#[cfg(test)]
mod sender_call;
#[cfg(test)]
mod shown;
#[cfg(test)]
mod sourced;
#[cfg(test)]
mod supervised;
#[cfg(test)]
mod system_driver;
#[cfg(test)]
mod system_script;
#[cfg(test)]
mod system_test;
#[cfg(test)]
mod test_system;
#[cfg(test)]
mod thousand;
#[cfg(test)]
mod throughput;
#[cfg(test)]
mod unbuilt;
#[cfg(test)]
mod whole_run;
