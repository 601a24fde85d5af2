//! What an actor does about a child that failed.

use crate::tables::each_text;
use std::test::Fail;

const DIRECTIVES: &str = "
Resume is for the child that failed alone; the failure of one that is no child is nothing.
actor 1 of 0; children 2 to 3; start spawn 2, spawn 3; rules resume error
create | handled: spawn 2, spawn 3 | resume, 2: create, 3: create | live 0 0
failed 2 error 1 | none | 2: resume failure | live 0 0
failed 4 error 1 | none | - | live 0 0

Without a limit of retries a restart is never refused.
actor 1 of 0; children 2 to 3; start spawn 2, spawn 3; rules restart error
create | handled: spawn 2, spawn 3 | resume, 2: create, 3: create | live 0 0
failed 3 error 1 | none | 3: recreate error 1 | live 0 0
failed 3 error 1 | none | 3: recreate error 1 | live 0 0
failed 3 error 1 | none | 3: recreate error 1 | live 0 0

actor 1 of 0; children 2 to 3; start spawn 2, spawn 3; rules stop error
create | handled: spawn 2, spawn 3 | resume, 2: create, 3: create | live 0 0
failed 2 error 1 | none | 2: terminate | live 0 0

Where no rule matches the default decides: an error restarts, all else stops.
actor 1 of 0; children 2 to 3; start spawn 2, spawn 3; rules resume error
create | handled: spawn 2, spawn 3 | resume, 2: create, 3: create | live 0 0
failed 2 init | none | 2: terminate | live 0 0
failed 2 killed | none | 2: terminate | live 0 0
failed 2 death pact | none | 2: terminate | live 0 0

actor 1 of 0; children 2 to 3; start spawn 2, spawn 3
create | handled: spawn 2, spawn 3 | resume, 2: create, 3: create | live 0 0
failed 2 error 4 | none | 2: recreate error 4 | live 0 0
failed 3 init | none | 3: terminate | live 0 0

The first rule that matches decides.
actor 1 of 0; children 2 to 3; start spawn 2, spawn 3; rules stop error 4, resume error, restart killed, resume death pact, restart any
create | handled: spawn 2, spawn 3 | resume, 2: create, 3: create | live 0 0
failed 2 error 4 | none | 2: terminate | live 0 0
failed 3 error 5 | none | 3: resume failure | live 0 0
failed 3 killed | none | 3: recreate killed | live 0 0
failed 3 death pact | none | 3: resume failure | live 0 0
failed 3 init | none | 3: recreate init | live 0 0
";

const RETRIES: &str = "
Each child has a count of its own, and is stopped once it was started afresh twice.
actor 1 of 0; children 2 to 3; start spawn 2, spawn 3; rules restart error; retries 2
create | handled: spawn 2, spawn 3 | resume, 2: create, 3: create | live 0 0
failed 2 error 1 | none | 2: recreate error 1 | live 0 0
failed 2 error 1 | none | 2: recreate error 1 | live 0 0
failed 2 error 1 | none | 2: terminate | live 0 0
failed 3 error 1 | none | 3: recreate error 1 | live 0 0
failed 2 error 1 | none | 2: terminate | live 0 0

actor 1 of 0; children 2 to 3; start spawn 2, spawn 3; rules restart error; retries 0
create | handled: spawn 2, spawn 3 | resume, 2: create, 3: create | live 0 0
failed 2 error 1 | none | 2: terminate | live 0 0
";

const ALL_FOR_ONE: &str = "
Those that had not failed are suspended first.
actor 1 of 0; children 2 to 3; start spawn 2, spawn 3; rules restart error; all for one
create | handled: spawn 2, spawn 3 | resume, 2: create, 3: create | live 0 0
failed 3 error 1 | none | 2: suspend, 2: recreate error 1, 3: recreate error 1 | live 0 0
failed 2 error 1 | none | 2: recreate error 1, 3: suspend, 3: recreate error 1 | live 0 0

actor 1 of 0; children 2 to 3; start spawn 2, spawn 3; rules stop error; all for one
create | handled: spawn 2, spawn 3 | resume, 2: create, 3: create | live 0 0
failed 3 error 1 | none | 2: terminate, 3: terminate | live 0 0

Resume is for the child that failed alone, and so is what is passed up.
actor 1 of 0; children 2 to 3; start spawn 2, spawn 3; rules resume error; all for one
create | handled: spawn 2, spawn 3 | resume, 2: create, 3: create | live 0 0
failed 3 error 1 | none | 3: resume failure | live 0 0

actor 1 of 0; children 2 to 3; start spawn 2, spawn 3; rules escalate error; all for one
create | handled: spawn 2, spawn 3 | resume, 2: create, 3: create | live 0 0
failed 3 error 1 | none | suspend, 2: suspend, 0: failed 1 error 1 | live 1 0

The older child was started afresh as often as it may be, so both are stopped for the failure of the younger.
actor 1 of 0; children 2 to 3; start spawn 2; rules restart error; retries 1; all for one
create | handled: spawn 2 | resume, 2: create | live 0 0
failed 2 error 1 | none | 2: recreate error 1 | live 0 0
user spawn 3 | handled: spawn 3 | 3: create | live 0 1
failed 3 error 1 | none | 2: terminate, 3: terminate | live 0 1

actor 1 of 0; children 2 to 3; start spawn 2, spawn 3; rules restart error; retries 0; all for one
create | handled: spawn 2, spawn 3 | resume, 2: create, 3: create | live 0 0
failed 2 error 1 | none | 2: terminate, 3: terminate | live 0 0
";

const TEXTS: &[(&str, u32)] = &[(DIRECTIVES, 22), (RETRIES, 8), (ALL_FOR_ONE, 15)];

#[test]
fn supervision(rt: HostRuntime) -> Result<(), Fail> {
    each_text(&rt, rt.alloc(), TEXTS)
}
