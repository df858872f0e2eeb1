// One step on a heap's bytes, without values.
#![tactic(auto)]

ghost use Rattle.std.specs.Prelude.{◌≡◌};
ghost use Rattle.heapbytes.specs.HeapBytes.{StepsBytes, no_values, link_kind};

use stepbytes::step_bytes;
use stepper::outcome_code;

// The kind, or 0, which is no kind, where it is above 7.
fn link_kind(kind: u32) -> u32
    ensures { result ≡ link_kind kind }
{
    if kind <= 7 { kind } else { 0 }
}

// One operation of kinds 1 to 7 on a heap of 137 bytes, without values: 0 for moved, 100 for blocked, or 13, 14, 15.
#[unsafe(no_mangle)]
pub extern "C" fn vorruda_step(heap: &mut [u8], kind: u32, a: u32, b: u32) -> u32
    ensures { StepsBytes heap.old no_values (link_kind kind) a b 0 result heap.new no_values }
{
    let mut values = [0; 64];
    outcome_code(step_bytes(heap, &mut values, link_kind(kind), a, b, 0))
}
