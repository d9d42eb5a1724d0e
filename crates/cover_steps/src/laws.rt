// Laws of the definitions in specs/. Each function does nothing, and its contract is the law.
ghost use Rattle.std.specs.Prelude.{List};
ghost use Rattle.rel_base.specs.JobParts.{JobParts};
ghost use Rattle.cover_steps.specs.Core.{Core};
ghost use Rattle.cover_steps.specs.Sound.{Sound, SoundWith};
ghost use Rattle.cover_steps.specs.Histories.{Entry, Runs};
ghost use Rattle.cover_steps.specs.Laws.{OpeningIsSound, StepsKeepSound, ReadyIsExact, BookedAreFew, LateJobsAreRight, RunsGoOn, RowsGoByBatches, QuietKeepsFinished, WitnessesStay, JobsOfTheSameRows, WitnessesDecide};

/// The opening of a relation is sound.
pub fn the_opening_is_sound()
    ensures { OpeningIsSound }
{}

/// Each list of steps, by any number of actors, keeps what is sound, and each job that was drawn fits.
pub fn steps_keep_what_is_sound()
    ensures { StepsKeepSound }
{}

/// Each answer that all is settled carries the covers of the rows after the batches that were accepted before it.
pub fn ready_is_exact()
    ensures { ReadyIsExact }
{}

/// Between two accepted batches the witnesses that are booked are at most the distinct agree sets of pairs of live rows.
pub fn booked_witnesses_are_few()
    ensures { BookedAreFew }
{}

/// A job may come back late, twice, after it was released, and after its candidate went and came back: its dependency holds
/// among the rows that are then live and have numbers below its `to`.
pub fn late_jobs_are_right()
    ensures { (jobs : List JobParts) (s new : Core) → SoundWith s jobs → LateJobsAreRight jobs s new }
{}

/// Lists of steps go on: one after another, by one more step at the end, and each may be parted anywhere.
pub fn lists_of_steps_go_on()
    ensures { (jobs : List JobParts) (s new : Core) → RunsGoOn jobs s new }
{}

/// The rows after a list of steps are those after its accepted batches in order, and the width stays.
pub fn rows_go_by_batches()
    ensures { RowsGoByBatches }
{}

/// Each step but an accepted batch keeps that each candidate is known to hold in all rows.
pub fn quiet_steps_keep_what_is_finished()
    ensures { QuietKeepsFinished }
{}

/// A witness whose two rows are live at the end of a list of steps is still listed.
pub fn witnesses_stay_while_their_rows_live()
    ensures { (jobs : List JobParts) (s new : Core) → SoundWith s jobs → WitnessesStay jobs s new }
{}

/// Two jobs of one list of steps with the same `to` and as many live rows were drawn from the same rows, so that their
/// snapshots are alike.
pub fn jobs_tell_the_same_rows()
    ensures { (jobs : List JobParts) (s new : Core) (es : List Entry) → SoundWith s jobs → Runs jobs s es new → JobsOfTheSameRows jobs s new es }
{}

/// The witnesses alone decide whether an agree set refutes a candidate.
pub fn witnesses_decide_what_is_known()
    ensures { (s : Core) → Sound s → WitnessesDecide s }
{}
