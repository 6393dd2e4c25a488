// The worked figures as one table, against the definitions that the calls go by.
ghost use Rattle.book.specs.Sample.{Worked};

use rules::figures::worked_figures;

// Nothing to do when it runs: its contract is the table.
pub fn worked_table()
    ensures { Worked }
{
    worked_figures();
}
