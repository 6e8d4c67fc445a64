// Refusal 20: whether there is a starting state.
ghost use Rattle.std.specs.Prelude.{◌≡◌};
ghost use Rattle.expressions.specs.Spans.{Spans};
ghost use Rattle.diagrams.specs.Diagram.{Loaded};
ghost use Rattle.diagrams.specs.Start.{starts_of};

use crate::scan::first_failing;
use diagrams::Diagram;
use testing::denial;

// Whether some state satisfies the start: where none does, "the start is false" holds at all of them. The answer is the same with boxes and without.
pub fn starts(file: &[u8], diagram: Diagram, spans: &[u16; 4096], by_boxes: bool) -> bool
    requires loaded { Loaded file.now diagram }
    requires spans { Spans file.now spans.now }
    ensures { result ≡ starts_of file.now diagram }
{
    let test = denial(diagram.start);
    first_failing(file, diagram, spans, test, by_boxes) < diagram.states
}
