// What the definitions come to: worked examples, and the two flags in the words of a table's questions.
ghost use Rattle.flags.specs.Examples.{CutsChecked, FullByTurns, FullOfFive, HitsByTurns, HitsOfFive};
ghost use Rattle.flags.specs.Readings.{FullRead, HitsRead};

// Holds the examples' theorems; it has nothing to do.
pub fn examples_stand()
    ensures hits { (HitsOfFive) × (HitsByTurns) }
    ensures full { (FullOfFive) × (FullByTurns) }
    ensures cuts { CutsChecked }
{}

// Holds the theorems of what the flags of all rows say; it has nothing to do.
pub fn readings_stand()
    ensures hits { HitsRead }
    ensures full { FullRead }
{}
