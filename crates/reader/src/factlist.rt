// Facts, which files of version 2 have after the links of a shape.
ghost use Rattle.std.proofs.Math.Option.{none};
ghost use Rattle.std.specs.Prelude.{◌≡◌, ◌≤◌};
ghost use Rattle.format.specs.Job.{facts_after, read_facts};
ghost use Rattle.layout.specs.Entries.{version_of};
ghost use Rattle.verdict.specs.Verdict.{reached_of};
ghost use Rattle.reader.specs.Facts.{FactAnswered};
ghost use Rattle.reader.specs.Number.{buffer_in, without_value};

use crate::Source;
use layout::version_of;
use number::Numeral;
use verdict::Refused;

impl Source<'_> {
    // A fact about n cells at a place, as its rank and the place after it. Facts rise by their ranks, 256 for the kind, 16 for the first cell, 1
    // for the second; one below the least rank that is due is refused at its second cell.
    fn fact(&self, first: usize, n: usize, least: usize) -> Result<Numeral, Refused>
        requires { n ≤ 12 }
        ensures { FactAnswered (buffer_in self.now) n least first result }
    {
        let kind = self.ranged(first, 0, 2)?;
        let left = self.ranged(kind.next, 0, n)?;
        let right = self.ranged(left.next, 0, n)?;
        let rank = kind.value * 256 + left.value * 16 + right.value;
        if rank < least {
            return Err(Refused {
                refusal: self.outside(),
                place: left.next,
            });
        }
        Ok(Numeral {
            value: rank,
            next: right.next,
        })
    }

    // So many facts about n cells, strictly rising.
    fn fact_list(&self, first: usize, n: usize, count: usize) -> Result<usize, Refused>
        requires { n ≤ 12 }
        ensures { reached_of result ≡ without_value (facts_after (buffer_in self.now) n count none first) }
    {
        // a loop, for the least rank that is due goes from each fact to the next
        let mut at = first;
        let mut least = 0;
        for _i in 0..count {
            let fact = self.fact(at, n, least)?;
            least = fact.value + 1;
            at = fact.next;
        }
        Ok(at)
    }

    // The number of facts about n cells and the facts, in version 2.
    fn counted(&self, at: usize, n: usize) -> Result<usize, Refused>
        requires { (n ≤ 12) × (version_of self.now.bytes.now ≡ 2) }
        ensures { reached_of result ≡ without_value (read_facts (buffer_in self.now) n (version_of self.now.bytes.now) at) }
    {
        let number = self.ranged(at, 0, 289)?;
        self.fact_list(number.next, n, number.value)
    }

    // The same, and nothing in version 1. It is short, so that it costs the reading of members of version 1 no call.
    pub(crate) fn facts(&self, at: usize, n: usize) -> Result<usize, Refused>
        requires { n ≤ 12 }
        ensures { reached_of result ≡ without_value (read_facts (buffer_in self.now) n (version_of self.now.bytes.now) at) }
    {
        if version_of(self.bytes) != 2 {
            return Ok(at);
        }
        self.counted(at, n)
    }
}
