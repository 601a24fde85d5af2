//! What is kept of handles that are dropped.
ghost use Rattle.std.specs.Prelude.{◌≡◌};

use mb_gate::Pass;
use mb_register::Registrar;

/// What the registrar knows; its port of the run queue is dropped.
pub(crate) fn pass_of<H, W: Drop>(registrar: Registrar<H, W>) -> Pass<H>
    ensures { result ≡ registrar.pass }
{
    let Registrar {
        pass,
        run_queue: _,
        owed: _,
        told: _,
    } = registrar;
    pass
}
