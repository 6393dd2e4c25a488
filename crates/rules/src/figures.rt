// Worked figures of rulebook 1, as one table against its definition.
ghost use Rattle.rules.specs.Figures.{Figures};

// Nothing to do when it runs: its contract is the table.
pub fn worked_figures()
    ensures { Figures }
{}
