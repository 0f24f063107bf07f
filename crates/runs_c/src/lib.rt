//! The call from C: the runs as a static library.
#![tactic(auto)]

ghost use Rattle.std.specs.Prelude.{◌≡◌, Option as Maybe};
ghost use Rattle.kconfig.specs.Runs.{run_of_number, signed_refusal};
ghost use Rattle.kconfig.specs.declared.Fault.{Fault as Faults};
ghost use Rattle.kconfig.specs.declared.Place.{Place as Places};
ghost use Rattle.runs.specs.Buffers.{SignedKept};

/// A run by its number: the length of the file in `out`, or the refusal as one number below 0.
#[unsafe(no_mangle)]
pub extern "C" fn voilechalk_run(
    number: u32,
    tree: &[u8],
    file: &[u8],
    answers: &[u8],
    out: &mut [u8],
) -> i64
    ensures number { run_of_number number ≡ Maybe.None → result ≡ signed_refusal (record { place = Places.Job; fault = Faults.Job }) }
    ensures buffer { run_of_number number ≡ Maybe.None → out.new ≡ out.old }
    ensures kept { SignedKept result out.old out.new }
{
    runs::carry::voilechalk_run(number, tree, file, answers, out)
}
