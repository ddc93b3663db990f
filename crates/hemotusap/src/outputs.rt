// A call's output as the number that a host gets.
ghost use Rattle.std.specs.Prelude.{◌≡◌, ◌^◌, ◌<◌, IfOk};
ghost use Rattle.hemotusap.specs.Host.{output_number};

use answer::refusal::Refusal;
use host::numbers::refused;

// The count of bytes written. It asks that 64 bits hold the count, so it is no public function of `host`.
pub(crate) fn written(output: Result<usize, Refusal>) -> i64
    requires { IfOk output (λ count. count < 2 ^ 63) }
    ensures { result ≡ output_number output }
{
    output.map_or_else(refused, |count| count as i64)
}
