//! Laws of what is printed.
ghost use Rattle.bac_kept.specs.Laws.{PartsPrintEach, PartsPrintEachOnce};

/// Of the rows of a log in the parts of an archive each item is printed once.
pub fn parts_print_each_once()
    ensures once { PartsPrintEachOnce }
    ensures each { PartsPrintEach }
{}
