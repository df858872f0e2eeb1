// One step on a heap as 137 bytes, with the codes of its cells' values.
#![tactic(auto)]

ghost use Rattle.stepper.specs.Step.{outcome_code};
ghost use Rattle.heapbytes.specs.HeapBytes.{StepsBytes};

use heapcodec::{read_heap, write_heap};
use stepper::{Outcome, StepRefusal};

// One operation on a heap of 137 bytes and 64 codes of values, which stay as they are unless it moves. Bytes that are no heap's are refused as an ill formed
// heap is. Kinds 11 to 13 write `value`. Kind, operands and value come one by one, as the C interface gives them.
pub fn step_bytes(
    heap: &mut [u8],
    values: &mut [u32; 64],
    kind: u32,
    a: u32,
    b: u32,
    value: u16,
) -> Outcome
    ensures { StepsBytes heap.old values.old kind a b value (outcome_code result) heap.new values.new }
{
    let Some(before) = read_heap(heap, *values) else {
        return Outcome::Refused(StepRefusal::IllFormed);
    };
    let stepped = before.step(kind, a, b, value);
    let outcome = stepped.outcome;
    if let Outcome::Moved = outcome {
        write_heap(stepped.heap, heap);
        let codes = stepped.heap.values;
        *values = codes;
    }
    outcome
}
