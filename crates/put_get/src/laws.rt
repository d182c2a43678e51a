//! Laws about the calls of a core, for the layers above. Each is a function that does nothing and ensures it.

ghost use Rattle.put_get.specs.Answers.{AnswersLaw, LinesLaw, LineCostLaw};
ghost use Rattle.put_get.specs.HeapStores.{HeapLaw};

/// Each answer of a core is the value of a load since the last `cl1invmb`, or a word that it wrote since.
pub fn answers_law()
    ensures { AnswersLaw }
{}

/// Each answer of the calls that read and write whole lines, and of put and get, is such a value too: of a load since
/// the last `cl1invmb`, or of a word that the core wrote since.
pub fn lines_law()
    ensures { LinesLaw }
{}

/// A line that is read costs at most four loads, and four more for each eviction, whatever the evictor does.
pub fn line_cost_law()
    ensures { LineCostLaw }
{}

/// A rank may put, write and flush heap lines wherever it has drafted nothing, takes no chunk and is in no barrier.
pub fn heap_law()
    ensures { HeapLaw }
{}
