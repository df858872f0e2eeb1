// One step on a heap's bytes and the values of its cells.
#![tactic(auto)]

ghost use Rattle.heapbytes.specs.HeapBytes.{StepsBytes};

use stepbytes::step_bytes;
use stepper::outcome_code;

// One operation on a heap of 137 bytes and 64 codes of values: 0 for moved, 100 for blocked, or 13, 14, 15. Kinds 11 to 13 write `value`.
#[unsafe(no_mangle)]
pub extern "C" fn vorruda_step_values(
    heap: &mut [u8],
    values: &mut [u32],
    kind: u32,
    a: u32,
    b: u32,
    value: u16,
) -> u32
    ensures { StepsBytes heap.old values.old kind a b value result heap.new values.new }
{
    let Some(codes) = values.as_mut_array() else {
        return 13;
    };
    outcome_code(step_bytes(heap, codes, kind, a, b, value))
}
