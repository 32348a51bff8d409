//! What holds of every state and history, each as the contract of a function that does nothing.

ghost use Rattle.al_model.specs.Laws.{NewestStatusAgrees, TimesFall, ShelvedIsMarked, HistoriesAreBounded, AlarmsAreInOrder, ShelvesAreFew, ReplaysAreValid, StepsKeepValid, SideTimesFollow};
ghost use Rattle.al_model.specs.Laws.{SameLeavesAllButTime, RefusalsFollowPoints, NeverRefusesForMeans, AnswersReply, DecidedEntriesFit};
ghost use Rattle.al_model.specs.Laws.{PurgesCountAlarms, CompressionsCountAlarms, SameCountsNone, RepeatsLeaveAll};
ghost use Rattle.al_model.specs.Laws.{EveryPrefixFits, OneMoreIsOneStep, OneMoreFits, FrontsAreLegal, EntriesAreWithin, EndsInTime};

/// What every alarm of a legal history says.
pub fn alarms_agree_with_their_histories()
    ensures newest { NewestStatusAgrees }
    ensures times { TimesFall }
    ensures shelved { ShelvedIsMarked }
    ensures bounded { HistoriesAreBounded }
{}

/// How many alarms and shelves there are, and in which order; and all that holds of the state together.
pub fn states_are_valid()
    ensures alarms { AlarmsAreInOrder }
    ensures shelves { ShelvesAreFew }
    ensures valid { ReplaysAreValid }
    ensures steps { StepsKeepValid }
    ensures side_times { SideTimesFollow }
{}

/// When a request changes nothing, by what it is refused, and what it answers.
pub fn decisions_follow_the_step()
    ensures same { SameLeavesAllButTime }
    ensures refusals { RefusalsFollowPoints }
    ensures never { NeverRefusesForMeans }
    ensures replies { AnswersReply }
    ensures fits { DecidedEntriesFit }
{}

/// What purges and compressions count, and what a repeat leaves.
pub fn counts_and_repeats()
    ensures purges { PurgesCountAlarms }
    ensures compressions { CompressionsCountAlarms }
    ensures none { SameCountsNone }
    ensures repeats { RepeatsLeaveAll }
{}

/// Which histories are legal, and what one more entry makes of one.
pub fn histories_grow_by_one_step()
    ensures every_prefix { EveryPrefixFits }
    ensures replay { OneMoreIsOneStep }
    ensures legal { OneMoreFits }
    ensures fronts { FrontsAreLegal }
    ensures within { EntriesAreWithin }
    ensures time { EndsInTime }
{}
