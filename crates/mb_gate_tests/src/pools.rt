//! The tests of the pool: what was pushed is taken once or is left, in each kind; a full pool; threads that move claims;
//! memory that is refused.

mod alone;
mod left;
mod play;
mod pushed;
mod refused;
mod test_pool;
mod threads;
mod work;
