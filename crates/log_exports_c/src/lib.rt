// The call of crate log_exports for C: liblog_exports.a. A crate is a library or an archive for C, not both, so the export here
// calls the library's function of its name and promises what it promises. include/cuudhaqil_log.h says it in words.
#![tactic(auto)]

ghost use Rattle.std.specs.Prelude.{◌≡◌};
ghost use Rattle.log_exports.specs.Calls.{check_log};

// Says whether the log agrees with the verdicts of the trace's records; the index of the first disagreement goes to `at`.
#[unsafe(no_mangle)]
pub extern "C" fn cuudhaqil_check_log(image: &[u8], trace: &[u8], log: &[u8], at: &mut [u64]) -> u64
    ensures { check_log image.now trace.now log.now at.old ≡ record { answer = result; left = at.new } }
{
    log_exports::cuudhaqil_check_log(image, trace, log, at)
}
