// An answer below, told as C takes it.
ghost use Rattle.std.specs.Prelude.{◌≡◌};
ghost use Rattle.refusal.specs.Refusal.{number_in, value_in};

use refusal::Refusal;

// The number of an answer, whose value is stored, or what is told beside a refusal.
pub(crate) fn told<T: Copy>(answer: Result<T, Refusal>, beside: T, value: &mut T) -> u8
    ensures number { result ≡ number_in answer }
    ensures stored { value.new ≡ value_in beside answer }
{
    *value = answer.unwrap_or(beside);
    refusal::number_in(&answer)
}
