// Laws of the histories of a desk. Each function does nothing, and its contract is the law.
ghost use Rattle.desk.specs.Laws.{HistoriesAreRuns, DrawnJobsFit, JobsTellTheSameRows, RowsGoByBatches, QuietTurnsKeepFinished, WitnessesStay, ReadyIsExact};

/// Each history is a list of steps of the shared cover. So the book is sound after it, and each job that was drawn fits.
pub fn histories_are_lists_of_steps()
    ensures { HistoriesAreRuns }
{}

/// A job whose draw stands in what a pass has seen fits the book now, whatever others did since.
pub fn drawn_jobs_fit()
    ensures { DrawnJobsFit }
{}

/// Two jobs of one history with the same `to` and as many live rows were drawn from the same rows, so that their snapshots are
/// alike; and likewise a job and the opened book.
pub fn jobs_tell_the_same_rows()
    ensures { JobsTellTheSameRows }
{}

/// The rows after a history are those after its accepted batches, in order, and the width stays.
pub fn rows_go_by_batches()
    ensures { RowsGoByBatches }
{}

/// Each turn but an accepted batch keeps that each candidate is known to hold in all rows.
pub fn quiet_turns_keep_what_is_finished()
    ensures { QuietTurnsKeepFinished }
{}

/// A witness whose two rows are live at the end is listed there.
pub fn witnesses_stay_while_their_rows_live()
    ensures { WitnessesStay }
{}

/// Each answer that all is settled carries the covers of the rows after the batches that were accepted before it.
pub fn ready_is_exact()
    ensures { ReadyIsExact }
{}
