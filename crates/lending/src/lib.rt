// What a call for C tells beside its number: values in an array that the host lends.
#![tactic(auto)]

ghost use Rattle.std.specs.Prelude.{◌≡◌};
ghost use Rattle.number.specs.CallResult.{lent};

// Hands values to the host in an array that it lends; leaves an array that is too short as it is.
pub fn lend(values: &[u64], out: &mut [u64])
    ensures { out.new ≡ lent values.now out.old }
{
    if values.len() <= out.len() {
        out[..values.len()].copy_from_slice(values);
    }
}
