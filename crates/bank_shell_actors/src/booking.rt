//! What an account is told.
use mb_msg::ActorId;
use mb_typed::{Command, Packed, actor_half, join_actor, join_halves, lower_half};

/// What an account is told.
#[derive(Clone, Copy, Debug, Drop, PartialEq, Eq)]
pub enum Booking {
    /// The amount is added to its balance.
    Deposit(u32),
    /// The amount is moved from it to this account.
    Transfer { to: ActorId, amount: u32 },
}

impl Command for Booking {
    ghost use Rattle.bank_shell_actors.specs.Bookings.{packed, unpacked, fits, comes_back};

    ghost packed = { packed };

    ghost unpacked = { unpacked };

    ghost fits = { fits };

    ghost comes_back = { comes_back };

    fn pack(&self) -> Packed {
        match *self {
            Booking::Deposit(amount) => Packed {
                kind: 1,
                value: join_halves(0, amount),
            },
            Booking::Transfer { to, amount } => Packed {
                kind: 2,
                value: join_actor(to, amount),
            },
        }
    }

    fn unpack(from: Packed) -> Option<Booking> {
        let amount = lower_half(from.value);
        match from.kind {
            1 => Some(Booking::Deposit(amount)),
            2 => match actor_half(from.value) {
                Some(to) => Some(Booking::Transfer { to, amount }),
                None => None,
            },
            _ => None,
        }
    }
}
