//! Two numbers in one value.
ghost use Rattle.std.specs.Prelude.{◌≡◌, ◌<◌, ◌^◌, pos};
ghost use Rattle.mb_typed.specs.Halves.{actor_of, joined, lower_of, upper_of};

use mb_msg::ActorId;

/// The value that has these two numbers, for a command of two fields: `upper_half` and `lower_half` give them back. Smaller
/// types fit too, by `i32::from` and `u32::from`.
pub fn join_halves(upper: i32, lower: u32) -> i64
    ensures { result ≡ joined upper lower }
{
    i64::from(upper) * 4_294_967_296 + i64::from(lower)
}

/// The first of the two numbers that a value has.
pub fn upper_half(value: i64) -> i32
    ensures { result ≡ upper_of value }
{
    (value >> 32) as i32
}

/// The second of the two numbers that a value has.
pub fn lower_half(value: i64) -> u32
    ensures { result ≡ lower_of value }
{
    value.rem_euclid(4_294_967_296) as u32
}

/// The value that has the number of an actor and a number, for a command that names an actor: `actor_half` and `lower_half` give
/// them back.
pub fn join_actor(id: ActorId, lower: u32) -> i64
    ensures value { result ≡ joined (pos id.0) lower }
    ensures within { id.0 < 2 ^ 16 }
{
    join_halves(i32::from(id.0), lower)
}

/// The actor whose number is the first of the two that a value has; `None` if no actor can have that number.
pub fn actor_half(value: i64) -> Option<ActorId>
    ensures { result ≡ actor_of (upper_of value) }
{
    match u16::try_from(upper_half(value)) {
        Ok(number) => Some(ActorId(number)),
        Err(_) => None,
    }
}
