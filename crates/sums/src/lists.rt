// The list of the examples that are proved.
ghost use Rattle.sums.specs.Sums.{Sums};

// Holds the examples' theorems; it has nothing to do.
pub fn sums_stand()
    ensures all { Sums }
{}
