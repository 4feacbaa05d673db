//! Faults of printing as faults of the laboratory.
ghost use Rattle.std.specs.Prelude.{◌≡◌, Ok, Err, IfOk};

use run_listeners::LabFault;
use screen_text::PrintFault;

/// What was printed, or why work didn't come to its end that prints.
pub(crate) fn lab_result<T>(printed: Result<T, PrintFault>) -> Result<T, LabFault>
    ensures ok { IfOk result (λ found. printed ≡ Ok found) }
    ensures memory { result ≡ Err LabFault.NoMemory → printed ≡ Err PrintFault.NoMemory }
{
    match printed {
        Ok(found) => Ok(found),
        Err(PrintFault::NoMemory) => Err(LabFault::NoMemory),
        Err(PrintFault::Write) => Err(LabFault::Write),
    }
}
