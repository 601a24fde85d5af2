//! The keys of each table, in the order in which they are checked.

ghost use Rattle.std.specs.Prelude.{◌≡◌, map};
ghost use Rattle.mb_schema.specs.Format.{key_data, top_keys, name_key, other_actor_keys, actor_keys, send_keys, row_keys};

use crate::form::{Form, Only, Rows, Words};
use crate::key::KeySchema;

const ANY_NUMBER: Form = Form::Whole {
    low: 0,
    high: 4_294_967_295,
};

static TOP: [KeySchema; 6] = [
    KeySchema {
        name: "workers",
        required: false,
        only: Only::Always,
        form: Form::Whole { low: 0, high: 16 },
    },
    KeySchema {
        name: "pool",
        required: false,
        only: Only::Always,
        form: Form::Word(Words::Pool),
    },
    KeySchema {
        name: "throughput",
        required: false,
        only: Only::Always,
        form: ANY_NUMBER,
    },
    KeySchema {
        name: "journal_limit",
        required: false,
        only: Only::Always,
        form: Form::Whole {
            low: 1,
            high: 4_294_967_295,
        },
    },
    KeySchema {
        name: "actor",
        required: false,
        only: Only::Always,
        form: Form::Tables { most: 63 },
    },
    KeySchema {
        name: "send",
        required: false,
        only: Only::Always,
        form: Form::Tables { most: 10_000 },
    },
];

/// The name first, and then the other keys.
static ACTOR: [KeySchema; 15] = [
    KeySchema {
        name: "name",
        required: true,
        only: Only::Always,
        form: Form::Name,
    },
    KeySchema {
        name: "parent",
        required: false,
        only: Only::Always,
        form: Form::Parent,
    },
    KeySchema {
        name: "mailbox",
        required: false,
        only: Only::Always,
        form: Form::Word(Words::Mailbox),
    },
    KeySchema {
        name: "capacity",
        required: true,
        only: Only::Bounded,
        form: Form::Whole {
            low: 1,
            high: 65_536,
        },
    },
    KeySchema {
        name: "rank",
        required: false,
        only: Only::Priority,
        form: Form::Rows(Rows::Rank),
    },
    KeySchema {
        name: "other",
        required: false,
        only: Only::Priority,
        form: ANY_NUMBER,
    },
    KeySchema {
        name: "initial",
        required: false,
        only: Only::Always,
        form: Form::AnyInteger,
    },
    KeySchema {
        name: "start",
        required: false,
        only: Only::Always,
        form: Form::Operations { adds: false },
    },
    KeySchema {
        name: "restart",
        required: false,
        only: Only::Always,
        form: Form::Operations { adds: false },
    },
    KeySchema {
        name: "stop",
        required: false,
        only: Only::Always,
        form: Form::Operations { adds: false },
    },
    KeySchema {
        name: "terminated",
        required: false,
        only: Only::Always,
        form: Form::Operations { adds: false },
    },
    KeySchema {
        name: "on",
        required: false,
        only: Only::Always,
        form: Form::Rows(Rows::On),
    },
    KeySchema {
        name: "strategy",
        required: false,
        only: Only::Always,
        form: Form::Rows(Rows::Strategy),
    },
    KeySchema {
        name: "retries",
        required: false,
        only: Only::Always,
        form: Form::AnyInteger,
    },
    KeySchema {
        name: "all_for_one",
        required: false,
        only: Only::Always,
        form: Form::Truth,
    },
];

static SEND: [KeySchema; 6] = [
    KeySchema {
        name: "from",
        required: false,
        only: Only::Always,
        form: Form::Whole { low: 0, high: 15 },
    },
    KeySchema {
        name: "to",
        required: true,
        only: Only::Always,
        form: Form::Receiver,
    },
    KeySchema {
        name: "what",
        required: false,
        only: Only::Always,
        form: Form::Word(Words::What),
    },
    KeySchema {
        name: "kind",
        required: true,
        only: Only::Message,
        form: ANY_NUMBER,
    },
    KeySchema {
        name: "value",
        required: false,
        only: Only::Message,
        form: Form::AnyInteger,
    },
    KeySchema {
        name: "times",
        required: false,
        only: Only::Always,
        form: Form::Whole {
            low: 1,
            high: 100_000,
        },
    },
];

static RANK: [KeySchema; 2] = [
    KeySchema {
        name: "kind",
        required: true,
        only: Only::Always,
        form: ANY_NUMBER,
    },
    KeySchema {
        name: "rank",
        required: true,
        only: Only::Always,
        form: ANY_NUMBER,
    },
];

static ON: [KeySchema; 2] = [
    KeySchema {
        name: "kind",
        required: true,
        only: Only::Always,
        form: ANY_NUMBER,
    },
    KeySchema {
        name: "do",
        required: true,
        only: Only::Always,
        form: Form::Operations { adds: true },
    },
];

static STRATEGY: [KeySchema; 2] = [
    KeySchema {
        name: "cause",
        required: true,
        only: Only::Always,
        form: Form::Cause,
    },
    KeySchema {
        name: "then",
        required: true,
        only: Only::Always,
        form: Form::Word(Words::Directive),
    },
];

pub(crate) fn top_keys() -> &'static [KeySchema]
    ensures { map key_data result.now ≡ top_keys }
{
    &TOP
}

pub(crate) fn name_key() -> &'static KeySchema
    ensures { key_data result.now ≡ name_key }
{
    &ACTOR[0]
}

pub(crate) fn other_actor_keys() -> &'static [KeySchema]
    ensures { map key_data result.now ≡ other_actor_keys }
{
    &ACTOR[1..]
}

pub(crate) fn actor_keys() -> &'static [KeySchema]
    ensures { map key_data result.now ≡ actor_keys }
{
    &ACTOR
}

pub(crate) fn send_keys() -> &'static [KeySchema]
    ensures { map key_data result.now ≡ send_keys }
{
    &SEND
}

/// The keys of the tables within an actor.
pub(crate) fn row_keys(rows: Rows) -> &'static [KeySchema]
    ensures { map key_data result.now ≡ row_keys rows }
{
    match rows {
        Rows::Rank => &RANK,
        Rows::On => &ON,
        Rows::Strategy => &STRATEGY,
    }
}
