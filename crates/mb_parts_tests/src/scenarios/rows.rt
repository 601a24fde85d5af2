//! Tests of the tables within an actor: each reason, and what is allowed.

use crate::scenarios::cases::{Frame, each_table};
use std::test::Fail;

/// The rows of a priority mailbox.
const RANK: Frame = Frame {
    before: "[[actor]]\nname = \"a\"\nmailbox = \"priority\"\nrank = [",
    after: "]\n[[actor]]\nname = \"b\"\nparent = \"a\"\n",
    told: "",
};

/// The rows of a script.
const ON: Frame = Frame {
    before: "[[actor]]\nname = \"a\"\non = [",
    after: "]\n[[actor]]\nname = \"b\"\nparent = \"a\"\n",
    told: "",
};

/// The rows of a strategy.
const STRATEGY: Frame = Frame {
    before: "[[actor]]\nname = \"a\"\nstrategy = [",
    after: "]\n[[actor]]\nname = \"b\"\nparent = \"a\"\n",
    told: "",
};

const RANKS: &str = r#"
1 => actor 1 rank 1: wrong type
{ kind = 1, rank = 1 }, [] => actor 1 rank 2: wrong type
{ rank = 1 } => actor 1 rank 1 kind: missing
{ kind = 1 } => actor 1 rank 1 rank: missing
{ kind = "1", rank = 1 } => actor 1 rank 1 kind: wrong type
{ kind = 1, rank = 1.0 } => actor 1 rank 1 rank: wrong type
{ kind = 1, rank = 2 }, { kind = -1, rank = 2 } => actor 1 rank 2 kind: out of range
{ kind = 4294967296, rank = 2 } => actor 1 rank 1 kind: out of range
{ kind = 1, rank = 4294967296 } => actor 1 rank 1 rank: out of range
{ kind = 1, other = 2 } => actor 1 rank 1 other: unknown key
{ kind = 1, rank = 2 }, { kind = 1, rank = 3 } => may stand
{ kind = 4294967295, rank = 4294967295 } => may stand
{ rank = 0, kind = 0 } => may stand
{ kind = 1, rank = -1 } => actor 1 rank 1 rank: out of range
{} => actor 1 rank 1 kind: missing
"#;

const ROWS: &str = r#"
1 => actor 1 on 1: wrong type
{ kind = 1, do = [] }, "add" => actor 1 on 2: wrong type
{ do = [] } => actor 1 on 1 kind: missing
{ kind = 1 } => actor 1 on 1 do: missing
{ kind = "1", do = [] } => actor 1 on 1 kind: wrong type
{ kind = 1, do = "add" } => actor 1 on 1 do: wrong type
{ kind = -1, do = [] } => actor 1 on 1 kind: out of range
{ kind = 4294967296, do = [] } => actor 1 on 1 kind: out of range
{ kind = 1, do = [], value = 1 } => actor 1 on 1 value: unknown key
{ kind = 1, do = ["add", 1] } => actor 1 on 1 do 2: wrong type
{ kind = 1, do = [] }, { kind = 2, do = ["ignore", "add", "no"] } => actor 1 on 2 do 3: bad op
{ kind = 1, do = ["stop c"] } => actor 1 on 1 do 1: unknown name
{ do = ["add"], kind = 1 } => may stand
{ kind = 0, do = [] }, { kind = 0, do = [] } => may stand
{ kind = 4294967295, do = ["add", "add"] } => may stand
{} => actor 1 on 1 kind: missing
"#;

const STRATEGIES: &str = r#"
1 => actor 1 strategy 1: wrong type
{ then = "stop" } => actor 1 strategy 1 cause: missing
{ cause = "any" } => actor 1 strategy 1 then: missing
{ cause = 1, then = "stop" } => actor 1 strategy 1 cause: wrong type
{ cause = "any", then = true } => actor 1 strategy 1 then: wrong type
{} => actor 1 strategy 1 cause: missing
{ cause = "any", then = "stop", retries = 1 } => actor 1 strategy 1 retries: unknown key
{ cause = "any", then = "resume" } => may stand
{ cause = "error", then = "restart" } => may stand
{ cause = "init", then = "stop" } => may stand
{ cause = "killed", then = "escalate" } => may stand
{ cause = "deathpact", then = "escalate" } => may stand
{ cause = "error 0", then = "stop" } => may stand
{ cause = "error 4294967295", then = "stop" } => may stand
// Every text that is no cause, and every word that is no directive, is out of range.
{ cause = "", then = "stop" } => actor 1 strategy 1 cause: out of range
{ cause = "never", then = "stop" } => actor 1 strategy 1 cause: out of range
{ cause = "Any", then = "stop" } => actor 1 strategy 1 cause: out of range
{ cause = "any ", then = "stop" } => actor 1 strategy 1 cause: out of range
{ cause = "error ", then = "stop" } => actor 1 strategy 1 cause: out of range
{ cause = "error  1", then = "stop" } => actor 1 strategy 1 cause: out of range
{ cause = "error 01", then = "stop" } => actor 1 strategy 1 cause: out of range
{ cause = "error -1", then = "stop" } => actor 1 strategy 1 cause: out of range
{ cause = "error +1", then = "stop" } => actor 1 strategy 1 cause: out of range
{ cause = "error 1 ", then = "stop" } => actor 1 strategy 1 cause: out of range
{ cause = "error x", then = "stop" } => actor 1 strategy 1 cause: out of range
{ cause = "error 4294967296", then = "stop" } => actor 1 strategy 1 cause: out of range
{ cause = "errors 1", then = "stop" } => actor 1 strategy 1 cause: out of range
{ cause = "init 1", then = "stop" } => actor 1 strategy 1 cause: out of range
{ cause = "death pact", then = "stop" } => actor 1 strategy 1 cause: out of range
{ cause = "any", then = "" } => actor 1 strategy 1 then: out of range
{ cause = "any", then = "halt" } => actor 1 strategy 1 then: out of range
{ cause = "any", then = "Stop" } => actor 1 strategy 1 then: out of range
{ cause = "any", then = "stop " } => actor 1 strategy 1 then: out of range
{ cause = "any", then = "error" } => actor 1 strategy 1 then: out of range
"#;

const TABLES: &[(&Frame, &str)] = &[(&RANK, RANKS), (&ON, ROWS), (&STRATEGY, STRATEGIES)];

#[test]
fn tells_the_faults_of_rows(rt: HostRuntime) -> Result<(), Fail> {
    each_table(&rt, rt.alloc(), TABLES)
}
