ghost use Rattle.std.specs.Prelude.{◌≡◌};
ghost use Rattle.vx_check.specs.Tests as tests;

use vx_refusals::CheckFault;

/// Passes where something is so, else answers the fault.
pub(crate) fn passes(so: bool, fault: CheckFault) -> Result<(), CheckFault>
    ensures { result ≡ tests.passes so fault }
{
    if so { Ok(()) } else { Err(fault) }
}
